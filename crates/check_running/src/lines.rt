// The lines of a scene that are dropped.
ghost use Rattle.std.specs.Prelude.{◌≡◌, ◌++◌, Some, None, IfOk, flat_map};
ghost use Rattle.check_running.specs.Lines.{front_with, told_front, told_line};
ghost use Rattle.check_running.specs.Refusals.{refusal_line};

use scene_check::DroppedLine;
use std::alloc::{AllocError, Global};

/// Puts the front of an encoder's line behind others.
fn push_encoder_front(
    alloc: Global,
    lines: &mut Vec<u8>,
    line: u32,
    frame: u32,
    encoder: u8,
) -> Result<(), AllocError>
    ensures { IfOk result (λ _. lines.new.items ≡ lines.old.items ++ front_with line frame (Some encoder)) }
{
    let front = format!(in alloc; "line {line} frame {frame} encoder {encoder} refused ")?;
    lines.extend_from_slice(front.as_bytes())?;
    Ok(())
}

/// Puts the front of a line of the API thread behind others.
fn push_own_front(
    alloc: Global,
    lines: &mut Vec<u8>,
    line: u32,
    frame: u32,
) -> Result<(), AllocError>
    ensures { IfOk result (λ _. lines.new.items ≡ lines.old.items ++ front_with line frame None) }
{
    let front = format!(in alloc; "line {line} frame {frame} refused ")?;
    lines.extend_from_slice(front.as_bytes())?;
    Ok(())
}

/// Puts the front of a line behind others: its number, its frame, and its encoder, if it has one.
fn push_front(alloc: Global, lines: &mut Vec<u8>, dropped: &DroppedLine) -> Result<(), AllocError>
    ensures { IfOk result (λ _. lines.new.items ≡ lines.old.items ++ told_front dropped.now) }
{
    match dropped.encoder {
        Some(encoder) => { push_encoder_front(alloc, lines, dropped.line, dropped.frame, encoder) }
        None => push_own_front(alloc, lines, dropped.line, dropped.frame),
    }
}

/// Puts the line of a dropped line behind others.
fn push_line(alloc: Global, lines: &mut Vec<u8>, dropped: &DroppedLine) -> Result<(), AllocError>
    ensures { IfOk result (λ _. lines.new.items ≡ lines.old.items ++ told_line dropped.now) }
{
    push_front(alloc, lines, dropped)?;
    lines.extend_from_slice(dropped.reason.word())?;
    lines.push(b'\n')?;
    Ok(())
}

/// A line for each dropped line: `line N frame K encoder E refused WORD`, without the encoder for a line of the API thread.
pub(crate) fn text_of(alloc: Global, dropped: &[DroppedLine]) -> Result<Vec<u8>, AllocError>
    ensures { IfOk result (λ text. text.items ≡ flat_map told_line dropped.now) }
{
    let mut lines = Vec::new(alloc);
    for line in dropped {
        push_line(alloc, &mut lines, line)?;
    }
    Ok(lines)
}

/// `scene refused at line L for cause C in field F`
fn field_refusal(alloc: Global, line: u32, cause: u8, field: u32) -> Result<Vec<u8>, AllocError>
    ensures { IfOk result (λ text. text.items ≡ refusal_line line cause (Some field)) }
{
    let text = format!(in alloc;
        "scene refused at line {line} for cause {cause} in field {field}\n"
    )?;
    let bytes = text.as_bytes().to_vec(alloc)?;
    Ok(bytes)
}

/// `scene refused at line L for cause C`
fn line_refusal(alloc: Global, line: u32, cause: u8) -> Result<Vec<u8>, AllocError>
    ensures { IfOk result (λ text. text.items ≡ refusal_line line cause None) }
{
    let text = format!(in alloc; "scene refused at line {line} for cause {cause}\n")?;
    let bytes = text.as_bytes().to_vec(alloc)?;
    Ok(bytes)
}

/// The line of a text that is refused at a line, for a cause, in a field.
pub(crate) fn refusal_of(
    alloc: Global,
    line: u32,
    cause: u8,
    field: Option<u32>,
) -> Result<Vec<u8>, AllocError>
    ensures { IfOk result (λ text. text.items ≡ refusal_line line cause field) }
{
    match field {
        Some(field) => field_refusal(alloc, line, cause, field),
        None => line_refusal(alloc, line, cause),
    }
}
