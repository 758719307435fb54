// Words.
ghost use Rattle.std.specs.Prelude.{◌≡◌, [], ◌∷◌, codes};
ghost use Rattle.fault_fields.specs.Spelled.{is_one_of, attribute_words, component_words};
ghost use Rattle.fault_fields.specs.Names.{create_words};

use text_fields::is;

pub(crate) fn is_format(field: &[u8]) -> bool
    ensures { result ≡ is_one_of (codes "rgba8" ∷ codes "d24s8" ∷ []) field.now }
{
    is(b"rgba8", field) || is(b"d24s8", field)
}

pub(crate) fn is_destination(field: &[u8]) -> bool
    ensures { result ≡ is_one_of (codes "dst" ∷ codes "-" ∷ []) field.now }
{
    is(b"dst", field) || is(b"-", field)
}

pub(crate) fn is_program(field: &[u8]) -> bool
    ensures { result ≡ is_one_of (codes "solid" ∷ codes "color" ∷ codes "texture" ∷ codes "texcolor" ∷ []) field.now }
{
    if is(b"solid", field) {
        return true;
    }
    if is(b"color", field) {
        return true;
    }
    if is(b"texture", field) {
        return true;
    }
    is(b"texcolor", field)
}

pub(crate) fn is_uniform(field: &[u8]) -> bool
    ensures { result ≡ is_one_of (codes "vec4" ∷ codes "int" ∷ []) field.now }
{
    is(b"vec4", field) || is(b"int", field)
}

pub(crate) fn is_setting(field: &[u8]) -> bool
    ensures { result ≡ is_one_of (codes "rect" ∷ codes "scissor" ∷ codes "clear" ∷ codes "mode" ∷ codes "target" ∷ codes "transform" ∷ codes "reset" ∷ []) field.now }
{
    if is(b"rect", field) {
        return true;
    }
    if is(b"scissor", field) {
        return true;
    }
    if is(b"clear", field) {
        return true;
    }
    if is(b"mode", field) {
        return true;
    }
    if is(b"target", field) {
        return true;
    }
    if is(b"transform", field) {
        return true;
    }
    is(b"reset", field)
}

pub(crate) fn is_mode(field: &[u8]) -> bool
    ensures { result ≡ is_one_of (codes "default" ∷ codes "sequential" ∷ codes "ascending" ∷ codes "descending" ∷ []) field.now }
{
    if is(b"default", field) {
        return true;
    }
    if is(b"sequential", field) {
        return true;
    }
    if is(b"ascending", field) {
        return true;
    }
    is(b"descending", field)
}

pub(crate) fn is_attribute(field: &[u8]) -> bool
    ensures { result ≡ is_one_of attribute_words field.now }
{
    if is(b"position", field) {
        return true;
    }
    if is(b"normal", field) {
        return true;
    }
    if is(b"tangent", field) {
        return true;
    }
    if is(b"color0", field) {
        return true;
    }
    if is(b"color1", field) {
        return true;
    }
    if is(b"texcoord0", field) {
        return true;
    }
    is(b"texcoord1", field)
}

pub(crate) fn is_component(field: &[u8]) -> bool
    ensures { result ≡ is_one_of component_words field.now }
{
    if is(b"u8", field) {
        return true;
    }
    if is(b"i16", field) {
        return true;
    }
    is(b"fixed", field)
}

/// Whether a line with this word makes a name, `uniform` lines apart.
pub(crate) fn is_create_word(field: &[u8]) -> bool
    ensures { result ≡ is_one_of create_words field.now }
{
    if is(b"layout", field) {
        return true;
    }
    if is(b"vb", field) {
        return true;
    }
    if is(b"ib", field) {
        return true;
    }
    if is(b"texture", field) {
        return true;
    }
    if is(b"fb", field) {
        return true;
    }
    is(b"program", field)
}
