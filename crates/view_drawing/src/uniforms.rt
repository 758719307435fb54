// The values of uniforms.
ghost use Rattle.std.specs.Prelude.{◌≡◌, option_map};
ghost use Rattle.gfx_model.specs.Words.{vec4, int};
ghost use Rattle.gfx_model.specs.World.{color_name, stage_name, painted_color as color_of_value, sampled_stage as stage_of_value};
ghost use Rattle.gfx_words.specs.Seen.{uniform_seen, value_seen};
ghost use Rattle.draw_encoder.specs.Seen.{part, uniforms_seen};
ghost use Rattle.store_laws.specs.ByIndex.{with_values, value_at};

use buffer_store::BufferStore;
use draw_encoder::UniformSet;
use gfx_words::{UniformKind, UniformValue};
use store_model::newest_law;
use vertex_layout::byte_of_fixed;

// The uniform that solid programs paint.
const COLOR: &[u8] = b"u_color";

// The uniform that says which stage is sampled.
const STAGE: &[u8] = b"s_tex";

/// A part of the values: as many as there are from a place on, up to a number.
pub(crate) fn sets_of(sets: &[UniformSet], at: u32, count: u32) -> &[UniformSet]
    ensures { result.now ≡ part sets.now at count }
{
    let rest = &sets[(at as usize).min(sets.len())..];
    &rest[..(count as usize).min(rest.len())]
}

/// Gives uniforms their values, in order.
pub(crate) fn set_values(buffers: &mut BufferStore, sets: &[UniformSet])
    ensures { buffers.new ≡ with_values buffers.old (uniforms_seen sets.now) }
{
    for set in sets {
        buffers.set_uniform(set.uniform.index(), set.value);
    }
}

/// The value of the newest uniform of a name and a kind.
fn newest_value(buffers: &BufferStore, name: &[u8], kind: UniformKind) -> Option<UniformValue>
    ensures { option_map value_seen result ≡ value_at buffers.now name.now (uniform_seen kind) }
{
    newest_law();
    match buffers.newest_named(name, kind) {
        Some(index) => buffers.value_of(index),
        None => None,
    }
}

/// What a solid draw paints by its uniform: white without one.
fn color_of(value: Option<UniformValue>) -> [u8; 4]
    ensures { result ≡ color_of_value (option_map value_seen value) }
{
    match value {
        Some(UniformValue::Vec4(v)) => [
            byte_of_fixed(v[0]),
            byte_of_fixed(v[1]),
            byte_of_fixed(v[2]),
            byte_of_fixed(v[3]),
        ],
        _ => [255; 4],
    }
}

/// What a solid draw paints.
pub(crate) fn solid_color(buffers: &BufferStore) -> [u8; 4]
    ensures { result ≡ color_of_value (value_at buffers.now color_name vec4) }
{
    color_of(newest_value(buffers, COLOR, UniformKind::Vec4))
}

/// The stage that a textured draw samples by its uniform: 0 without one.
fn stage_of(value: Option<UniformValue>) -> i32
    ensures { result ≡ stage_of_value (option_map value_seen value) }
{
    match value {
        Some(UniformValue::Int(stage)) => stage,
        _ => 0,
    }
}

/// The stage that a textured draw samples.
pub(crate) fn sampled_stage(buffers: &BufferStore) -> i32
    ensures { result ≡ stage_of_value (value_at buffers.now stage_name int) }
{
    stage_of(newest_value(buffers, STAGE, UniformKind::Int))
}
