// From picture texts to their capture.
ghost use Rattle.std.specs.Prelude.{◌≡◌, ◌≤◌, ◌++◌, IfOk, OnOk, List, length};
ghost use Rattle.frame_capture.specs.declared.run.Color.{Color};
ghost use Rattle.frame_capture.specs.Capture.{IsCapture, head_of};
ghost use Rattle.frame_capture.specs.Spelling.{AreTexts, AreTextsOf, film, frame_of, runs_of};

use crate::fields::MARK;
use crate::run::{Run, pixel_at};
use std::alloc::{AllocError, Global};

/// Puts the runs of these pixels.
fn put_runs(capture: &mut Vec<u8>, pixels: &[u8]) -> Result<(), AllocError>
    ensures { OnOk result (capture.new.items ≡ capture.old.items ++ runs_of pixels.now) }
{
    let Some((color, rest)) = pixel_at(pixels) else {
        return Ok(());
    };
    let mut run = Run::first(color);
    let mut rest = rest;
    while let Some((color, after)) = pixel_at(rest) {
        if run.goes_on(&color) {
            run.count += 1;
        } else {
            run.put(capture)?;
            run = Run::first(color);
        }
        rest = after;
    }
    run.put(capture)?;
    Ok(())
}

/// Puts the frame of a picture text whose head is so long.
fn put_frame(
    capture: &mut Vec<u8>,
    number: u32,
    head_len: usize,
    text: &[u8],
) -> Result<(), AllocError>
    requires { head_len ≤ length text.now }
    ensures { OnOk result (capture.new.items ≡ capture.old.items ++ frame_of number head_len text.now) }
{
    capture.extend_from_slice(&number.to_le_bytes())?;
    put_runs(capture, &text[head_len..])?;
    Ok(())
}

/// A capture's head.
fn put_head(alloc: Global, width: u16, height: u16, frames: u32) -> Result<Vec<u8>, AllocError>
    ensures { IfOk result (λ v. v.items ≡ head_of width height frames) }
{
    let mut capture = Vec::new(alloc);
    capture.extend_from_slice(MARK)?;
    capture.extend_from_slice(&width.to_le_bytes())?;
    capture.extend_from_slice(&height.to_le_bytes())?;
    capture.extend_from_slice(&frames.to_le_bytes())?;
    Ok(capture)
}

/// The capture of pictures of these sides, from their joined picture texts, of which there is at least one: sides of 1 to 2,048, at most
/// 1,024 pictures, and at most 134,217,728 bytes.
///
/// # Errors
///
/// `AllocError` for want of memory alone.
pub fn encode(alloc: Global, width: u16, height: u16, texts: &[u8]) -> Result<Vec<u8>, AllocError>
    requires { AreTexts width height texts.now }
    ensures { (pictures : List (List Color)) → AreTextsOf width height texts.now pictures → IfOk result (λ v. IsCapture v.items (film width height pictures)) }
{
    let head = format!(in alloc; "P6\n{width} {height}\n255\n")?;
    let pixels = usize::from(width) * usize::from(height);
    let text_len = head.len() + 3 * pixels;
    let frames = (texts.len() / text_len) as u32;
    let mut capture = put_head(alloc, width, height, frames)?;
    let mut rest = texts;
    for number in 0..frames {
        let (text, after) = rest.split_at(text_len);
        put_frame(&mut capture, number, head.len(), text)?;
        rest = after;
    }
    Ok(capture)
}
