// The parts of a line.
ghost use Rattle.std.specs.Prelude.{◌≡◌, ◌<◌, ◌++◌, flat_map, option_map, codes, IfOk};
ghost use Rattle.std.specs.Fmt.{decimal};
ghost use Rattle.spelling_model.specs.FieldSpelling.{hex_digit, hex_pair, color_spelled};
ghost use Rattle.pixel_ops.specs.Seen.{pixel_seen};
ghost use Rattle.pixel_strokes.specs.Seen.{fate_seen, stroke_seen};
ghost use Rattle.trace_laws.specs.Text.{doer_text, fate_text, pixel_text, stroke_text, word_text};
ghost use Rattle.trace_lines.specs.Numbered.{number_text};
ghost use Rattle.trace_lines.specs.Seen.{doer_seen};

use crate::doers::Doer;
use itoa::Buffer;
use pixel_ops::Pixel;
use pixel_strokes::{Fate, Stroke};
use std::alloc::AllocError;

/// Puts a number in decimal digits. Only want of memory refuses, here and below.
pub fn put_number(text: &mut Vec<u8>, number: u64) -> Result<(), AllocError>
    ensures { IfOk result (λ _. text.new.items ≡ text.old.items ++ decimal number) }
{
    let mut buffer = Buffer::new();
    text.extend_from_slice(buffer.format(number).as_bytes())?;
    Ok(())
}

/// A hexadecimal digit.
fn hex_digit(number: u8) -> u8
    requires { number < 16 }
    ensures { result ≡ hex_digit number }
{
    if number < 10 {
        48 + number
    } else {
        87 + number
    }
}

/// Puts the two digits of a byte.
fn put_pair(text: &mut Vec<u8>, byte: u8) -> Result<(), AllocError>
    ensures { IfOk result (λ _. text.new.items ≡ text.old.items ++ hex_pair byte) }
{
    let pair = [hex_digit(byte / 16), hex_digit(byte % 16)];
    text.extend_from_slice(&pair)?;
    Ok(())
}

/// Puts the digits of bytes.
fn put_pairs(text: &mut Vec<u8>, bytes: &[u8]) -> Result<(), AllocError>
    ensures { IfOk result (λ _. text.new.items ≡ text.old.items ++ flat_map hex_pair bytes.now) }
{
    for byte in bytes {
        put_pair(text, *byte)?;
    }
    Ok(())
}

/// Puts a colour, two digits a channel.
fn put_color(text: &mut Vec<u8>, color: [u8; 4]) -> Result<(), AllocError>
    ensures { IfOk result (λ _. text.new.items ≡ text.old.items ++ color_spelled color) }
{
    put_pairs(text, &color)?;
    Ok(())
}

/// Puts a depth and a stencil, where they are there.
fn put_word(text: &mut Vec<u8>, word: Option<u32>) -> Result<(), AllocError>
    ensures { IfOk result (λ _. text.new.items ≡ text.old.items ++ word_text word) }
{
    if let Some(word) = word {
        text.extend_from_slice(b" ")?;
        put_number(text, (word % 16_777_216) as u64)?;
        text.extend_from_slice(b" ")?;
        put_number(text, (word / 16_777_216) as u64)?;
    }
    Ok(())
}

/// Puts a pixel: its colour, two hexadecimal digits a channel, and behind spaces its depth and its stencil in decimal digits, where it has them.
pub fn put_pixel(text: &mut Vec<u8>, pixel: &Pixel) -> Result<(), AllocError>
    ensures { IfOk result (λ _. text.new.items ≡ text.old.items ++ pixel_text (pixel_seen pixel.now)) }
{
    put_color(text, pixel.color)?;
    put_word(text, pixel.depth)
}

/// Puts the doer of a clear.
fn put_view(text: &mut Vec<u8>, view: u16) -> Result<(), AllocError>
    ensures { IfOk result (λ _. text.new.items ≡ text.old.items ++ (codes " view " ++ decimal view)) }
{
    text.extend_from_slice(b" view ")?;
    put_number(text, view as u64)
}

/// Puts the doer of an item.
fn put_item(text: &mut Vec<u8>, view: u16, encoder: u8, ordinal: u32) -> Result<(), AllocError>
    ensures { IfOk result (λ _. text.new.items ≡ text.old.items ++ (codes " view " ++ (decimal view ++ (codes " encoder " ++ (decimal encoder ++ (codes " item " ++ decimal ordinal)))))) }
{
    put_view(text, view)?;
    text.extend_from_slice(b" encoder ")?;
    put_number(text, encoder as u64)?;
    text.extend_from_slice(b" item ")?;
    put_number(text, ordinal as u64)
}

/// Puts whose a deed is, behind a space, where that is known: ` view V` of a clear, ` view V encoder E item I` of an item.
pub fn put_doer(text: &mut Vec<u8>, doer: Option<Doer>) -> Result<(), AllocError>
    ensures { IfOk result (λ _. text.new.items ≡ text.old.items ++ doer_text (option_map doer_seen doer)) }
{
    match doer {
        None => Ok(()),
        Some(Doer::Clear { view }) => put_view(text, view),
        Some(Doer::Item { view, entry }) => { put_item(text, view, entry.encoder, entry.ordinal) }
    }
}

/// Puts ` line N`, the number of a line of the text, where it is known.
pub fn put_line_number(text: &mut Vec<u8>, line: Option<u32>) -> Result<(), AllocError>
    ensures { IfOk result (λ _. text.new.items ≡ text.old.items ++ number_text line) }
{
    if let Some(line) = line {
        text.extend_from_slice(b" line ")?;
        put_number(text, line as u64)?;
    }
    Ok(())
}

/// Puts the number, the colour and the depth of a triangle's fragment.
fn put_fragment(
    text: &mut Vec<u8>,
    triangle: u32,
    color: [u8; 4],
    depth: u32,
) -> Result<(), AllocError>
    ensures { IfOk result (λ _. text.new.items ≡ text.old.items ++ (codes " triangle " ++ (decimal triangle ++ (codes " color " ++ (color_spelled color ++ (codes " depth " ++ decimal depth)))))) }
{
    text.extend_from_slice(b" triangle ")?;
    put_number(text, triangle as u64)?;
    text.extend_from_slice(b" color ")?;
    put_color(text, color)?;
    text.extend_from_slice(b" depth ")?;
    put_number(text, depth as u64)
}

/// Puts what a stroke is.
pub(crate) fn put_stroke(text: &mut Vec<u8>, stroke: &Stroke) -> Result<(), AllocError>
    ensures { IfOk result (λ _. text.new.items ≡ text.old.items ++ stroke_text (stroke_seen stroke.now)) }
{
    match stroke {
        Stroke::Clear(_) => {
            text.extend_from_slice(b" clear")?;
            Ok(())
        }
        Stroke::Fragment(fragment) => put_fragment(
            text,
            fragment.triangle,
            fragment.shaded.color,
            fragment.shaded.depth,
        ),
    }
}

/// The word of a fate.
pub(crate) fn fate_word(fate: Fate) -> &'static [u8]
    ensures { result.now ≡ fate_text (fate_seen fate) }
{
    match fate {
        Fate::Cleared => b"cleared",
        Fate::Stored => b"stored",
        Fate::Masked => b"masked",
        Fate::FailsDepth => b"depth",
        Fate::FailsStencil => b"stencil",
    }
}
