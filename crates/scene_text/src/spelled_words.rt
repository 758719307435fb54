// The words of fields that are written, and names.
ghost use Rattle.std.specs.Prelude.{◌≡◌, map};
ghost use Rattle.gfx_words.specs.Kinds.{format_seen, program_seen, uniform_seen, mode_seen};
ghost use Rattle.spelling_model.specs.FieldSpelling.{format_word, program_word, uniform_kind_word, mode_word, destination_word, name_at, optional_name_at};
ghost use Rattle.scene_text.specs.Seen.{name_seen};

use crate::scene::SceneName;
use gfx_words::{Format, ProgramKind, UniformKind, ViewMode};

pub fn format_text(format: Format) -> &'static [u8]
    ensures { result.now ≡ format_word (format_seen format) }
{
    match format {
        Format::Rgba8 => b"rgba8",
        Format::D24S8 => b"d24s8",
    }
}

pub fn program_text(kind: ProgramKind) -> &'static [u8]
    ensures { result.now ≡ program_word (program_seen kind) }
{
    match kind {
        ProgramKind::Solid => b"solid",
        ProgramKind::Color => b"color",
        ProgramKind::Texture => b"texture",
        ProgramKind::TexColor => b"texcolor",
    }
}

pub fn uniform_text(kind: UniformKind) -> &'static [u8]
    ensures { result.now ≡ uniform_kind_word (uniform_seen kind) }
{
    match kind {
        UniformKind::Vec4 => b"vec4",
        UniformKind::Int => b"int",
    }
}

pub fn mode_text(mode: ViewMode) -> &'static [u8]
    ensures { result.now ≡ mode_word (mode_seen mode) }
{
    match mode {
        ViewMode::Default => b"default",
        ViewMode::Sequential => b"sequential",
        ViewMode::DepthAscending => b"ascending",
        ViewMode::DepthDescending => b"descending",
    }
}

pub fn destination_text(blit_dst: bool) -> &'static [u8]
    ensures { result.now ≡ destination_word blit_dst }
{
    if blit_dst { b"dst" } else { b"-" }
}

/// The text of a name at its place, or no bytes.
pub fn name_text(names: &[SceneName], place: u32) -> &[u8]
    ensures { result.now ≡ name_at (map name_seen names.now) place }
{
    match names.get(place as usize) {
        Some(name) => name.text.as_slice(),
        None => &[],
    }
}

/// The same, or `-` for none.
pub fn optional_text(names: &[SceneName], place: Option<u32>) -> &[u8]
    ensures { result.now ≡ optional_name_at (map name_seen names.now) place }
{
    match place {
        Some(place) => name_text(names, place),
        None => b"-",
    }
}
