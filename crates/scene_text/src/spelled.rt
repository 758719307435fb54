// How the fields of a line are written.
ghost use Rattle.std.specs.Prelude.{◌≡◌, ◌<◌, ◌++◌, [], ◌∷◌, map, flat_map, codes, IfOk};
ghost use Rattle.std.specs.Fmt.{decimal, signed_decimal};
ghost use Rattle.spelling_model.specs.FieldSpelling.{hex_digit, hex_pair, hex_field, color_spelled, part_spelled, attribute_word, component_word};
ghost use Rattle.spelling_model.specs.LineSpelling.{view_spelled};
ghost use Rattle.spelling_model.specs.Written.{line_text};
ghost use Rattle.vertex_layout.specs.Kinds.{attribute_seen, component_seen};
ghost use Rattle.scene_text.specs.Seen.{part_seen};
ghost use Rattle.scene_text.specs.Spelled.{spelled, behind};

use crate::scene::LayoutPart;
use itoa::Buffer;
use std::alloc::AllocError;
use vertex_layout::{Attr, AttrType};

/// A field of a line that is written.
#[derive(Clone, Copy, Drop)]
pub enum Spelled<'a> {
    /// A word or a name.
    Text(&'a [u8]),
    Number(u64),
    Signed(i32),
    Hex(&'a [u8]),
    Color([u8; 4]),
    /// `fill:COLOR`
    Fill([u8; 4]),
    /// `hex:HEX`
    Texels(&'a [u8]),
    Part(LayoutPart),
}

pub fn put_number(text: &mut Vec<u8>, number: u64) -> Result<(), AllocError>
    ensures { IfOk result (λ _. text.new.items ≡ text.old.items ++ decimal number) }
{
    let mut buffer = Buffer::new();
    text.extend_from_slice(buffer.format(number).as_bytes())?;
    Ok(())
}

fn put_signed(text: &mut Vec<u8>, number: i32) -> Result<(), AllocError>
    ensures { IfOk result (λ _. text.new.items ≡ text.old.items ++ signed_decimal number) }
{
    let mut buffer = Buffer::new();
    text.extend_from_slice(buffer.format(number).as_bytes())?;
    Ok(())
}

fn hex_digit(number: u8) -> u8
    requires { number < 16 }
    ensures { result ≡ hex_digit number }
{
    if number < 10 {
        48 + number
    } else {
        87 + number
    }
}

fn put_pair(text: &mut Vec<u8>, byte: u8) -> Result<(), AllocError>
    ensures { IfOk result (λ _. text.new.items ≡ text.old.items ++ hex_pair byte) }
{
    let pair = [hex_digit(byte / 16), hex_digit(byte % 16)];
    text.extend_from_slice(&pair)?;
    Ok(())
}

fn put_pairs(text: &mut Vec<u8>, bytes: &[u8]) -> Result<(), AllocError>
    ensures { IfOk result (λ _. text.new.items ≡ text.old.items ++ flat_map hex_pair bytes.now) }
{
    for byte in bytes {
        put_pair(text, *byte)?;
    }
    Ok(())
}

fn put_hex(text: &mut Vec<u8>, bytes: &[u8]) -> Result<(), AllocError>
    ensures { IfOk result (λ _. text.new.items ≡ text.old.items ++ hex_field bytes.now) }
{
    match bytes {
        [] => text.extend_from_slice(b"-")?,
        _ => put_pairs(text, bytes)?,
    }
    Ok(())
}

fn put_color(text: &mut Vec<u8>, color: [u8; 4]) -> Result<(), AllocError>
    ensures { IfOk result (λ _. text.new.items ≡ text.old.items ++ color_spelled color) }
{
    put_pairs(text, &color)?;
    Ok(())
}

fn attribute_text(attr: Attr) -> &'static [u8]
    ensures { result.now ≡ attribute_word (attribute_seen attr) }
{
    match attr {
        Attr::Position => b"position",
        Attr::Normal => b"normal",
        Attr::Tangent => b"tangent",
        Attr::Color0 => b"color0",
        Attr::Color1 => b"color1",
        Attr::Texcoord0 => b"texcoord0",
        Attr::Texcoord1 => b"texcoord1",
    }
}

fn component_text(kind: AttrType) -> &'static [u8]
    ensures { result.now ≡ component_word (component_seen kind) }
{
    match kind {
        AttrType::U8 => b"u8",
        AttrType::I16 => b"i16",
        AttrType::Fixed => b"fixed",
    }
}

fn put_attribute(
    text: &mut Vec<u8>,
    attr: Attr,
    kind: AttrType,
    count: u8,
) -> Result<(), AllocError>
    ensures { IfOk result (λ _. text.new.items ≡ text.old.items ++ (attribute_word (attribute_seen attr) ++ (codes ":" ++ (component_word (component_seen kind) ++ (codes ":" ++ decimal count))))) }
{
    text.extend_from_slice(attribute_text(attr))?;
    text.extend_from_slice(b":")?;
    text.extend_from_slice(component_text(kind))?;
    text.extend_from_slice(b":")?;
    put_number(text, u64::from(count))?;
    Ok(())
}

fn put_skip(text: &mut Vec<u8>, bytes: u8) -> Result<(), AllocError>
    ensures { IfOk result (λ _. text.new.items ≡ text.old.items ++ (codes "skip:" ++ decimal bytes)) }
{
    text.extend_from_slice(b"skip:")?;
    put_number(text, u64::from(bytes))?;
    Ok(())
}

fn put_part(text: &mut Vec<u8>, part: LayoutPart) -> Result<(), AllocError>
    ensures { IfOk result (λ _. text.new.items ≡ text.old.items ++ part_spelled (part_seen part)) }
{
    match part {
        LayoutPart::Attribute { attr, kind, count } => put_attribute(text, attr, kind, count)?,
        LayoutPart::Skip { bytes } => put_skip(text, bytes)?,
    }
    Ok(())
}

fn put_fill(text: &mut Vec<u8>, color: [u8; 4]) -> Result<(), AllocError>
    ensures { IfOk result (λ _. text.new.items ≡ text.old.items ++ (codes "fill:" ++ color_spelled color)) }
{
    text.extend_from_slice(b"fill:")?;
    put_color(text, color)?;
    Ok(())
}

fn put_texels(text: &mut Vec<u8>, bytes: &[u8]) -> Result<(), AllocError>
    ensures { IfOk result (λ _. text.new.items ≡ text.old.items ++ (codes "hex:" ++ hex_field bytes.now)) }
{
    text.extend_from_slice(b"hex:")?;
    put_hex(text, bytes)?;
    Ok(())
}

/// A field at the end of a text.
fn put(text: &mut Vec<u8>, field: &Spelled) -> Result<(), AllocError>
    ensures { IfOk result (λ _. text.new.items ≡ text.old.items ++ spelled field.now) }
{
    match field {
        Spelled::Text(bytes) => text.extend_from_slice(bytes)?,
        Spelled::Number(number) => put_number(text, *number)?,
        Spelled::Signed(number) => put_signed(text, *number)?,
        Spelled::Hex(bytes) => put_hex(text, bytes)?,
        Spelled::Color(color) => put_color(text, *color)?,
        Spelled::Fill(color) => put_fill(text, *color)?,
        Spelled::Texels(bytes) => put_texels(text, bytes)?,
        Spelled::Part(part) => put_part(text, *part)?,
    }
    Ok(())
}

/// Fields behind a word.
fn put_fields(text: &mut Vec<u8>, fields: &[Spelled]) -> Result<(), AllocError>
    ensures { IfOk result (λ _. text.new.items ≡ text.old.items ++ behind (map spelled fields.now)) }
{
    for field in fields {
        text.push(b' ')?;
        put(text, field)?;
    }
    Ok(())
}

/// The beginning of a line: its word, then fields.
fn put_start(text: &mut Vec<u8>, word: &[u8], fields: &[Spelled]) -> Result<(), AllocError>
    ensures { IfOk result (λ _. text.new.items ≡ text.old.items ++ (word.now ++ behind (map spelled fields.now))) }
{
    text.extend_from_slice(word)?;
    put_fields(text, fields)?;
    Ok(())
}

/// The beginning of a view line: the view, and what is set.
fn put_view(text: &mut Vec<u8>, view: u16, setting: &[u8]) -> Result<(), AllocError>
    ensures { IfOk result (λ _. text.new.items ≡ text.old.items ++ (codes "view" ++ behind (decimal view ∷ setting.now ∷ []))) }
{
    let fields = [Spelled::Number(u64::from(view)), Spelled::Text(setting)];
    put_start(text, b"view", &fields)
}

fn put_integers(text: &mut Vec<u8>, numbers: &[i32]) -> Result<(), AllocError>
    ensures { IfOk result (λ _. text.new.items ≡ text.old.items ++ behind (map signed_decimal numbers.now)) }
{
    for number in numbers {
        text.push(b' ')?;
        put_signed(text, *number)?;
    }
    Ok(())
}

fn put_numbers(text: &mut Vec<u8>, numbers: &[u16]) -> Result<(), AllocError>
    ensures { IfOk result (λ _. text.new.items ≡ text.old.items ++ behind (map decimal numbers.now)) }
{
    for number in numbers {
        text.push(b' ')?;
        put_number(text, u64::from(*number))?;
    }
    Ok(())
}

fn put_parts(text: &mut Vec<u8>, parts: &[LayoutPart]) -> Result<(), AllocError>
    ensures { IfOk result (λ _. text.new.items ≡ text.old.items ++ behind (map (λ p. part_spelled (part_seen p)) parts.now)) }
{
    for part in parts {
        text.push(b' ')?;
        put_part(text, *part)?;
    }
    Ok(())
}

/// A line that ends with integers.
pub fn put_integer_line(
    text: &mut Vec<u8>,
    word: &[u8],
    fields: &[Spelled],
    numbers: &[i32],
) -> Result<(), AllocError>
    ensures { IfOk result (λ _. text.new.items ≡ text.old.items ++ line_text (word.now ∷ (map spelled fields.now ++ map signed_decimal numbers.now))) }
{
    put_start(text, word, fields)?;
    put_integers(text, numbers)?;
    text.push(b'\n')?;
    Ok(())
}

/// A line of numbers.
pub fn put_number_line(text: &mut Vec<u8>, word: &[u8], numbers: &[u16]) -> Result<(), AllocError>
    ensures { IfOk result (λ _. text.new.items ≡ text.old.items ++ line_text (word.now ∷ map decimal numbers.now)) }
{
    put_start(text, word, &[])?;
    put_numbers(text, numbers)?;
    text.push(b'\n')?;
    Ok(())
}

/// A line that ends with the parts of a layout.
pub fn put_part_line(
    text: &mut Vec<u8>,
    word: &[u8],
    fields: &[Spelled],
    parts: &[LayoutPart],
) -> Result<(), AllocError>
    ensures { IfOk result (λ _. text.new.items ≡ text.old.items ++ line_text (word.now ∷ (map spelled fields.now ++ map part_spelled (map part_seen parts.now)))) }
{
    put_start(text, word, fields)?;
    put_parts(text, parts)?;
    text.push(b'\n')?;
    Ok(())
}

/// A line at the end of a text: its word, then its fields.
pub fn put_line(text: &mut Vec<u8>, word: &[u8], fields: &[Spelled]) -> Result<(), AllocError>
    ensures { IfOk result (λ _. text.new.items ≡ text.old.items ++ line_text (word.now ∷ map spelled fields.now)) }
{
    put_start(text, word, &[])?;
    put_fields(text, fields)?;
    text.push(b'\n')?;
    Ok(())
}

/// A view line: the view, what is set, and the values.
pub fn put_view_line(
    text: &mut Vec<u8>,
    view: u16,
    setting: &[u8],
    values: &[Spelled],
) -> Result<(), AllocError>
    ensures { IfOk result (λ _. text.new.items ≡ text.old.items ++ line_text (view_spelled view setting.now (map spelled values.now))) }
{
    put_view(text, view, setting)?;
    put_fields(text, values)?;
    text.push(b'\n')?;
    Ok(())
}

/// A view line whose values are integers.
pub fn put_view_integer_line(
    text: &mut Vec<u8>,
    view: u16,
    setting: &[u8],
    numbers: &[i32],
) -> Result<(), AllocError>
    ensures { IfOk result (λ _. text.new.items ≡ text.old.items ++ line_text (view_spelled view setting.now (map signed_decimal numbers.now))) }
{
    put_view(text, view, setting)?;
    put_integers(text, numbers)?;
    text.push(b'\n')?;
    Ok(())
}
