// The words with which lines begin, and those of fields.
ghost use Rattle.std.specs.Prelude.{◌≡◌, option_map, bytes_eq};
ghost use Rattle.scene_model.specs.Field.{find_word, word_in, formats, destinations, modes, attributes, component_types};
ghost use Rattle.gfx_words.specs.Kinds.{format_seen, program_seen, uniform_seen, mode_seen};
ghost use Rattle.vertex_layout.specs.Kinds.{attribute_seen, component_seen};
ghost use Rattle.scene_text.specs.Gives.{Gives};
ghost use Rattle.scene_model.specs.Field.{programs, uniform_kinds};
ghost use Rattle.scene_model.specs.Grammar.{settings};
ghost use Rattle.scene_text.specs.LineWords.{order_words, resource_words, encoder_words, word_of};
ghost use Rattle.scene_text.specs.SeenWords.{word_seen, setting_seen};

use crate::fault::Cause;
use gfx_words::{Format, ProgramKind, UniformKind, ViewMode};
use vertex_layout::{Attr, AttrType};

/// A word with which a line begins.
#[derive(Clone, Copy, Debug, PartialEq, Eq, Drop)]
pub enum Word {
    Scene,
    Size,
    Encoders,
    Room,
    Latency,
    Frame,
    Encoder,
    Beside,
    Done,
    Journal,
    Layout,
    VertexBuffer,
    IndexBuffer,
    Texture,
    FrameBuffer,
    Program,
    Uniform,
    Update,
    TexUpdate,
    Destroy,
    View,
    Order,
    State,
    Stencil,
    Scissor,
    Transform,
    Vertices,
    Indices,
    TransientVertices,
    TransientIndices,
    Bind,
    Set,
    Submit,
    Touch,
    Blit,
}

/// What a `view` line sets.
#[derive(Clone, Copy, Debug, PartialEq, Eq, Drop)]
pub enum Setting {
    Rect,
    Scissor,
    Clear,
    Mode,
    Target,
    Transform,
    Reset,
}

/// Whether a field is a word.
#[inline(always)]
pub fn is(word: &[u8], field: &[u8]) -> bool
    ensures { result ≡ bytes_eq word.now field.now }
{
    word == field
}

/// A word of the order of lines.
fn order_word(field: &[u8]) -> Option<Word>
    ensures { option_map word_seen result ≡ find_word order_words field.now }
{
    if is(b"scene", field) {
        return Some(Word::Scene);
    }
    if is(b"size", field) {
        return Some(Word::Size);
    }
    if is(b"encoders", field) {
        return Some(Word::Encoders);
    }
    if is(b"room", field) {
        return Some(Word::Room);
    }
    if is(b"latency", field) {
        return Some(Word::Latency);
    }
    if is(b"frame", field) {
        return Some(Word::Frame);
    }
    if is(b"encoder", field) {
        return Some(Word::Encoder);
    }
    if is(b"beside", field) {
        return Some(Word::Beside);
    }
    if is(b"done", field) {
        return Some(Word::Done);
    }
    if is(b"j", field) {
        return Some(Word::Journal);
    }
    None
}

/// A word of a resource or view line.
fn resource_word(field: &[u8]) -> Option<Word>
    ensures { option_map word_seen result ≡ find_word resource_words field.now }
{
    if is(b"layout", field) {
        return Some(Word::Layout);
    }
    if is(b"vb", field) {
        return Some(Word::VertexBuffer);
    }
    if is(b"ib", field) {
        return Some(Word::IndexBuffer);
    }
    if is(b"texture", field) {
        return Some(Word::Texture);
    }
    if is(b"fb", field) {
        return Some(Word::FrameBuffer);
    }
    if is(b"program", field) {
        return Some(Word::Program);
    }
    if is(b"uniform", field) {
        return Some(Word::Uniform);
    }
    if is(b"update", field) {
        return Some(Word::Update);
    }
    if is(b"texupdate", field) {
        return Some(Word::TexUpdate);
    }
    if is(b"destroy", field) {
        return Some(Word::Destroy);
    }
    if is(b"view", field) {
        return Some(Word::View);
    }
    if is(b"order", field) {
        return Some(Word::Order);
    }
    None
}

/// A word of an encoder line.
fn encoder_word(field: &[u8]) -> Option<Word>
    ensures { option_map word_seen result ≡ find_word encoder_words field.now }
{
    if is(b"state", field) {
        return Some(Word::State);
    }
    if is(b"stencil", field) {
        return Some(Word::Stencil);
    }
    if is(b"scissor", field) {
        return Some(Word::Scissor);
    }
    if is(b"transform", field) {
        return Some(Word::Transform);
    }
    if is(b"vertices", field) {
        return Some(Word::Vertices);
    }
    if is(b"indices", field) {
        return Some(Word::Indices);
    }
    if is(b"tvertices", field) {
        return Some(Word::TransientVertices);
    }
    if is(b"tindices", field) {
        return Some(Word::TransientIndices);
    }
    if is(b"bind", field) {
        return Some(Word::Bind);
    }
    if is(b"set", field) {
        return Some(Word::Set);
    }
    if is(b"submit", field) {
        return Some(Word::Submit);
    }
    if is(b"touch", field) {
        return Some(Word::Touch);
    }
    if is(b"blit", field) {
        return Some(Word::Blit);
    }
    None
}

/// The word with which a line begins.
#[tactic(auto, unfolding(crate::specs::LineWords::word_of))]
pub fn line_word(field: &[u8]) -> Option<Word>
    ensures { option_map word_seen result ≡ word_of field.now }
{
    if let Some(word) = encoder_word(field) {
        return Some(word);
    }
    if let Some(word) = resource_word(field) {
        return Some(word);
    }
    order_word(field)
}

/// What a `view` line sets.
#[tactic(auto, unfolding(scene_model::specs::Field::word_in))]
pub fn setting_word(field: &[u8]) -> Result<Setting, Cause>
    ensures { Gives setting_seen result (word_in settings field.now) }
{
    if is(b"rect", field) {
        return Ok(Setting::Rect);
    }
    if is(b"scissor", field) {
        return Ok(Setting::Scissor);
    }
    if is(b"clear", field) {
        return Ok(Setting::Clear);
    }
    if is(b"mode", field) {
        return Ok(Setting::Mode);
    }
    if is(b"target", field) {
        return Ok(Setting::Target);
    }
    if is(b"transform", field) {
        return Ok(Setting::Transform);
    }
    if is(b"reset", field) {
        return Ok(Setting::Reset);
    }
    Err(Cause::Misspelt)
}

/// The kind of a program.
#[tactic(auto, unfolding(scene_model::specs::Field::word_in))]
pub fn program_word(field: &[u8]) -> Result<ProgramKind, Cause>
    ensures { Gives program_seen result (word_in programs field.now) }
{
    if is(b"solid", field) {
        return Ok(ProgramKind::Solid);
    }
    if is(b"color", field) {
        return Ok(ProgramKind::Color);
    }
    if is(b"texture", field) {
        return Ok(ProgramKind::Texture);
    }
    if is(b"texcolor", field) {
        return Ok(ProgramKind::TexColor);
    }
    Err(Cause::Misspelt)
}

/// The kind of a uniform.
#[tactic(auto, unfolding(scene_model::specs::Field::word_in))]
pub fn uniform_word(field: &[u8]) -> Result<UniformKind, Cause>
    ensures { Gives uniform_seen result (word_in uniform_kinds field.now) }
{
    if is(b"vec4", field) {
        return Ok(UniformKind::Vec4);
    }
    if is(b"int", field) {
        return Ok(UniformKind::Int);
    }
    Err(Cause::Misspelt)
}

/// The format of a texture.
#[tactic(auto, unfolding(scene_model::specs::Field::word_in))]
pub fn format_word(field: &[u8]) -> Result<Format, Cause>
    ensures { Gives format_seen result (word_in formats field.now) }
{
    if is(b"rgba8", field) {
        return Ok(Format::Rgba8);
    }
    if is(b"d24s8", field) {
        return Ok(Format::D24S8);
    }
    Err(Cause::Misspelt)
}

/// Whether a texture is a destination of blits.
#[tactic(auto, unfolding(scene_model::specs::Field::word_in))]
pub fn destination_word(field: &[u8]) -> Result<bool, Cause>
    ensures { Gives (λ d. d) result (word_in destinations field.now) }
{
    if is(b"dst", field) {
        return Ok(true);
    }
    if is(b"-", field) {
        return Ok(false);
    }
    Err(Cause::Misspelt)
}

/// The mode of a view.
#[tactic(auto, unfolding(scene_model::specs::Field::word_in))]
pub fn mode_word(field: &[u8]) -> Result<ViewMode, Cause>
    ensures { Gives mode_seen result (word_in modes field.now) }
{
    if is(b"default", field) {
        return Ok(ViewMode::Default);
    }
    if is(b"sequential", field) {
        return Ok(ViewMode::Sequential);
    }
    if is(b"ascending", field) {
        return Ok(ViewMode::DepthAscending);
    }
    if is(b"descending", field) {
        return Ok(ViewMode::DepthDescending);
    }
    Err(Cause::Misspelt)
}

/// The attribute of a part.
#[tactic(auto, unfolding(scene_model::specs::Field::word_in))]
pub fn attribute_word(field: &[u8]) -> Result<Attr, Cause>
    ensures { Gives attribute_seen result (word_in attributes field.now) }
{
    if is(b"position", field) {
        return Ok(Attr::Position);
    }
    if is(b"normal", field) {
        return Ok(Attr::Normal);
    }
    if is(b"tangent", field) {
        return Ok(Attr::Tangent);
    }
    if is(b"color0", field) {
        return Ok(Attr::Color0);
    }
    if is(b"color1", field) {
        return Ok(Attr::Color1);
    }
    if is(b"texcoord0", field) {
        return Ok(Attr::Texcoord0);
    }
    if is(b"texcoord1", field) {
        return Ok(Attr::Texcoord1);
    }
    Err(Cause::Misspelt)
}

/// The type of a part's components.
#[tactic(auto, unfolding(scene_model::specs::Field::word_in))]
pub fn component_word(field: &[u8]) -> Result<AttrType, Cause>
    ensures { Gives component_seen result (word_in component_types field.now) }
{
    if is(b"u8", field) {
        return Ok(AttrType::U8);
    }
    if is(b"i16", field) {
        return Ok(AttrType::I16);
    }
    if is(b"fixed", field) {
        return Ok(AttrType::Fixed);
    }
    Err(Cause::Misspelt)
}
