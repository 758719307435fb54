// The order of lines: which word can stand where.
ghost use Rattle.std.specs.Prelude.{◌≡◌};
ghost use Rattle.scene_model.specs.Grammar as model;
ghost use Rattle.scene_text.specs.SeenWords.{word_seen};
ghost use Rattle.scene_text.specs.SeenReading.{stage_seen};

use crate::words::Word;

/// Where in the order of lines a text stands.
#[derive(Clone, Copy, Debug, PartialEq, Eq, Drop)]
pub enum Stage {
    AtFront,
    AtSize,
    AtEncoders,
    AtRoom,
    AtLatency,
    AtFirstFrame,
    InBefore,
    InBlock,
    InBeside,
    AtEnd,
}

/// Whether a word begins a resource or view line.
fn is_resource_word(word: Word) -> bool
    ensures { result ≡ model.is_resource_word (word_seen word) }
{
    match word {
        Word::Layout
        | Word::VertexBuffer
        | Word::IndexBuffer
        | Word::Texture
        | Word::FrameBuffer
        | Word::Program
        | Word::Uniform
        | Word::Update
        | Word::TexUpdate
        | Word::Destroy
        | Word::View
        | Word::Order => true,
        _ => false,
    }
}

/// Whether a word begins an encoder line.
fn is_encoder_word(word: Word) -> bool
    ensures { result ≡ model.is_encoder_word (word_seen word) }
{
    match word {
        Word::State
        | Word::Stencil
        | Word::Scissor
        | Word::Transform
        | Word::Vertices
        | Word::Indices
        | Word::TransientVertices
        | Word::TransientIndices
        | Word::Bind
        | Word::Set
        | Word::Submit
        | Word::Touch
        | Word::Blit => true,
        _ => false,
    }
}

fn stands_before(word: Word) -> bool
    ensures { result ≡ model.can_stand model.in_before (word_seen word) }
{
    match word {
        Word::Encoder | Word::Beside | Word::Frame | Word::Done => true,
        _ => is_resource_word(word),
    }
}

fn stands_in_block(word: Word) -> bool
    ensures { result ≡ model.can_stand model.in_block (word_seen word) }
{
    match word {
        Word::Encoder | Word::Beside | Word::Frame | Word::Done => true,
        _ => is_encoder_word(word),
    }
}

fn stands_beside(word: Word) -> bool
    ensures { result ≡ model.can_stand model.in_beside (word_seen word) }
{
    match word {
        Word::Frame | Word::Done => true,
        _ => is_resource_word(word),
    }
}

/// Whether a word can stand at a stage.
pub fn can_stand(stage: Stage, word: Word) -> bool
    ensures { result ≡ model.can_stand (stage_seen stage) (word_seen word) }
{
    match stage {
        Stage::AtFront => word == Word::Scene,
        Stage::AtSize => word == Word::Size,
        Stage::AtEncoders => word == Word::Encoders,
        Stage::AtRoom => word == Word::Room || word == Word::Latency || word == Word::Frame,
        Stage::AtLatency => word == Word::Latency || word == Word::Frame,
        Stage::AtFirstFrame => word == Word::Frame,
        Stage::InBefore => stands_before(word),
        Stage::InBlock => stands_in_block(word),
        Stage::InBeside => stands_beside(word),
        Stage::AtEnd => false,
    }
}

/// Whether the `done` line was read.
pub fn is_at_end(stage: Stage) -> bool
    ensures { result ≡ model.is_at_end (stage_seen stage) }
{
    match stage {
        Stage::AtEnd => true,
        _ => false,
    }
}
