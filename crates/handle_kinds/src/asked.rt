// What a call asks of a handle.
ghost use Rattle.std.specs.Prelude.{◌≡◌, ◌&&◌, not};
ghost use Rattle.gfx_model.specs.Words.{is_kind, uniform_kind};
ghost use Rattle.handle_kinds.specs.Formats.{is_depth_option};
ghost use Rattle.gfx_model.specs.Recorder as calls;
ghost use Rattle.gfx_words.specs.Seen.{kind_seen, value_seen};

use gfx_words::{Format, Handle, Info, Kind, UniformKind, UniformValue};

/// The handle is of another kind.
pub fn is_not_of(h: &Handle, kind: Kind) -> bool
    ensures { result ≡ not (is_kind h.now.kind (kind_seen kind)) }
{
    h.kind().number() != kind.number()
}

/// The handle is no texture of colours.
pub fn is_no_color_texture(h: &Handle) -> bool
    ensures { result ≡ not (calls.is_rgba8_option (calls.format_of h.now)) }
{
    !is_color_texture(h)
}

fn is_color_texture(h: &Handle) -> bool
    ensures { result ≡ calls.is_rgba8_option (calls.format_of h.now) }
{
    match h.info() {
        Info::Texture {
            format: Format::Rgba8,
            ..
        } => !is_not_of(h, Kind::Texture),
        _ => false,
    }
}

fn is_depth_texture(h: &Handle) -> bool
    ensures { result ≡ is_depth_option (calls.format_of h.now) }
{
    match h.info() {
        Info::Texture {
            format: Format::D24S8,
            ..
        } => !is_not_of(h, Kind::Texture),
        _ => false,
    }
}

/// One of the handles is no texture, or their formats differ.
pub fn differ_in_format(a: &Handle, b: &Handle) -> bool
    ensures { result ≡ not (calls.same_formats (calls.format_of a.now) (calls.format_of b.now)) }
{
    !have_one_format(a, b)
}

fn have_one_format(a: &Handle, b: &Handle) -> bool
    ensures { result ≡ calls.same_formats (calls.format_of a.now) (calls.format_of b.now) }
{
    is_color_texture(a) && is_color_texture(b) || is_depth_texture(a) && is_depth_texture(b)
}

/// The handle is no texture that was made as a destination of blits.
pub fn is_no_blit_destination(h: &Handle) -> bool
    ensures { result ≡ not (calls.is_blit_destination_in h.now.info) }
{
    match h.info() {
        Info::Texture { blit_dst, .. } => !blit_dst,
        _ => true,
    }
}

/// The handle is no uniform, or the value is of the other kind.
pub fn is_no_uniform_for(h: &Handle, value: &UniformValue) -> bool
    ensures { result ≡ not (is_kind h.now.kind uniform_kind && calls.takes_value h.now.info (value_seen value.now)) }
{
    is_not_of(h, Kind::Uniform) || !takes(h, value)
}

fn takes(h: &Handle, value: &UniformValue) -> bool
    ensures { result ≡ calls.takes_value h.now.info (value_seen value.now) }
{
    match (h.info(), value) {
        (Info::Uniform(UniformKind::Vec4), UniformValue::Vec4(_)) => true,
        (Info::Uniform(UniformKind::Int), UniformValue::Int(_)) => true,
        _ => false,
    }
}
