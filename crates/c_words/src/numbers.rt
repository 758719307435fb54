// Formats, programs, kinds and modes by the numbers that C passes. They are of 32 bits, as C's enumerations are.
ghost use Rattle.std.specs.Prelude.{◌≡◌, option_map};
ghost use Rattle.gfx_model.specs.Words.{format_of_number, program_of_number, uniform_of_number};
ghost use Rattle.gfx_words.specs.Seen.{format_seen, mode_seen, program_seen, uniform_seen};
ghost use Rattle.c_words.specs.Modes.{mode_of_number};

use gfx_words::{Format, ProgramKind, UniformKind, ViewMode};

/// The format of a number: 0 is RGBA8, 1 is D24S8.
pub fn format_of(number: u32) -> Option<Format>
    ensures { option_map format_seen result ≡ format_of_number number }
{
    match number {
        0 => Some(Format::Rgba8),
        1 => Some(Format::D24S8),
        _ => None,
    }
}

/// The built-in program of a number from 0 to 3: the uniform's colour, the vertices', a texture's, or the product of the last two.
pub fn program_of(number: u32) -> Option<ProgramKind>
    ensures { option_map program_seen result ≡ program_of_number number }
{
    match number {
        0 => Some(ProgramKind::Solid),
        1 => Some(ProgramKind::Color),
        2 => Some(ProgramKind::Texture),
        3 => Some(ProgramKind::TexColor),
        _ => None,
    }
}

/// The kind of a uniform of a number: 0 is four numbers, 1 is one whole number.
pub fn uniform_kind_of(number: u32) -> Option<UniformKind>
    ensures { option_map uniform_seen result ≡ uniform_of_number number }
{
    match number {
        0 => Some(UniformKind::Vec4),
        1 => Some(UniformKind::Int),
        _ => None,
    }
}

/// The mode of a number from 0 to 3: by program, as they come, by ascending depth, by descending depth.
pub fn mode_of(number: u32) -> Option<ViewMode>
    ensures { option_map mode_seen result ≡ mode_of_number number }
{
    match number {
        0 => Some(ViewMode::Default),
        1 => Some(ViewMode::Sequential),
        2 => Some(ViewMode::DepthAscending),
        3 => Some(ViewMode::DepthDescending),
        _ => None,
    }
}
