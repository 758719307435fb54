// The words of kinds.
ghost use Rattle.std.specs.Prelude.{◌≡◌, option_map};
ghost use Rattle.gfx_words.specs.Kinds.{program_seen, uniform_seen};
ghost use Rattle.load_text.specs.Text.{program_word, uniform_word};

use gfx_words::{ProgramKind, UniformKind};
use text_fields::is;

/// The kind of a program.
#[tactic(auto, unfolding(crate::specs::Text::program_word, scene_model::specs::Field::word_in))]
pub(crate) fn program_word(field: &[u8]) -> Option<ProgramKind>
    ensures { option_map program_seen result ≡ program_word field.now }
{
    if is(b"solid", field) {
        return Some(ProgramKind::Solid);
    }
    if is(b"color", field) {
        return Some(ProgramKind::Color);
    }
    if is(b"texture", field) {
        return Some(ProgramKind::Texture);
    }
    if is(b"texcolor", field) {
        return Some(ProgramKind::TexColor);
    }
    None
}

/// The kind of a uniform.
#[tactic(auto, unfolding(crate::specs::Text::uniform_word, scene_model::specs::Field::word_in))]
pub(crate) fn uniform_word(field: &[u8]) -> Option<UniformKind>
    ensures { option_map uniform_seen result ≡ uniform_word field.now }
{
    if is(b"vec4", field) {
        return Some(UniformKind::Vec4);
    }
    if is(b"int", field) {
        return Some(UniformKind::Int);
    }
    None
}
