// The fields of a capture, each read off the front of the bytes.
ghost use Rattle.std.specs.Prelude.{◌≡◌, ◌<◌, ◌≤◌, ◌*◌, IfOk, IsErrOf, decimal, length};
ghost use Rattle.std.specs.Int.{w16, w32};
ghost use Rattle.frame_capture.specs.Film.{text_length};
ghost use Rattle.frame_capture.specs.Fault.{after_mark, count_at, number_at, run_at, side_at};
ghost use Rattle.frame_capture.specs.Gives.{Gives};
ghost use Rattle.frame_capture.specs.declared.fault.FieldFault.TheVariants as fields;

use crate::fault::FieldFault;
use crate::run::{Color, Run};

pub(crate) const MARK: &[u8] = b"GFX1";

const MOST_SIDE: u16 = 2048;

const MOST_FRAMES: u32 = 1024;

const MOST_BYTES: usize = 134_217_728;

fn u16_at(bytes: &[u8]) -> Result<(u16, &[u8]), FieldFault>
    ensures exact { Gives (λ x. (x.0, x.1.now)) result (number_at w16 bytes.now) }
    ensures sure { IsErrOf result fields.OutOfMemory → ⊥ }
{
    if bytes.len() < 2 {
        return Err(FieldFault::CUT_OFF);
    }
    let (front, rest) = bytes.split_at(2);
    let number = u16::from_le_bytes([front[0], front[1]]);
    Ok((number, rest))
}

pub(crate) fn u32_at(bytes: &[u8]) -> Result<(u32, &[u8]), FieldFault>
    ensures exact { Gives (λ x. (x.0, x.1.now)) result (number_at w32 bytes.now) }
    ensures sure { IsErrOf result fields.OutOfMemory → ⊥ }
{
    if bytes.len() < 4 {
        return Err(FieldFault::CUT_OFF);
    }
    let (front, rest) = bytes.split_at(4);
    let number = u32::from_le_bytes([front[0], front[1], front[2], front[3]]);
    Ok((number, rest))
}

/// The bytes behind the mark.
#[tactic(auto, unfolding(crate::specs::Fault::after_mark))]
pub(crate) fn after_mark(bytes: &[u8]) -> Result<&[u8], FieldFault>
    ensures exact { Gives (λ x. x.now) result (after_mark bytes.now) }
    ensures sure { IsErrOf result fields.OutOfMemory → ⊥ }
{
    if bytes.len() < 4 {
        return Err(FieldFault::CUT_OFF);
    }
    let (front, rest) = bytes.split_at(4);
    if front == MARK {
        return Ok(rest);
    }
    Err(FieldFault::OTHER_MARK)
}

/// A side, and the bytes behind it.
#[tactic(auto, unfolding(crate::specs::Fault::side_at))]
pub(crate) fn side_at(bytes: &[u8]) -> Result<(u16, &[u8]), FieldFault>
    ensures exact { Gives (λ x. (x.0, x.1.now)) result (side_at bytes.now) }
    ensures within { IfOk result (λ x. x.0 ≤ 2048) }
    ensures sure { IsErrOf result fields.OutOfMemory → ⊥ }
{
    let (side, rest) = u16_at(bytes)?;
    if 1 <= side && side <= MOST_SIDE {
        return Ok((side, rest));
    }
    Err(FieldFault::OUT_OF_RANGE)
}

/// How many decimal digits a side has.
fn digits(side: u16) -> usize
    requires { side ≤ 2048 }
    ensures exact { result ≡ length (decimal side) }
    ensures most { result ≤ 4 }
{
    if side < 10 {
        return 1;
    }
    if side < 100 {
        return 2;
    }
    if side < 1000 {
        return 3;
    }
    4
}

/// The bytes of a picture text of these sides.
pub(crate) fn text_len(width: u16, height: u16) -> usize
    requires { (width ≤ 2048) × (height ≤ 2048) }
    ensures { result ≡ text_length width height }
{
    let head_len = 9 + digits(width) + digits(height);
    head_len + 3 * (usize::from(width) * usize::from(height))
}

/// The number of frames, each of so many bytes of picture text, and the bytes behind it.
#[tactic(auto, unfolding(crate::specs::Fault::count_at))]
pub(crate) fn count_at(
    width: u16,
    height: u16,
    text_len: usize,
    bytes: &[u8],
) -> Result<(u32, &[u8]), FieldFault>
    requires { text_len ≡ text_length width height }
    ensures exact { Gives (λ x. (x.0, x.1.now)) result (count_at width height bytes.now) }
    ensures within { IfOk result (λ x. x.0 * text_len ≤ 134217728) }
    ensures sure { IsErrOf result fields.OutOfMemory → ⊥ }
{
    let (frames, rest) = u32_at(bytes)?;
    if 1 <= frames
        && frames <= MOST_FRAMES
        && (frames as usize).saturating_mul(text_len) <= MOST_BYTES
    {
        return Ok((frames, rest));
    }
    Err(FieldFault::OUT_OF_RANGE)
}

/// The run at the front, where so many pixels are wanted behind the run before it, and the bytes behind it.
#[tactic(auto, unfolding(crate::specs::Fault::run_at))]
pub(crate) fn run_at<'a>(
    before: &Option<Run>,
    wanted: u32,
    bytes: &'a [u8],
) -> Result<(Run, &'a [u8]), FieldFault>
    ensures exact { Gives (λ x. (x.0, x.1.now)) result (run_at before.now wanted bytes.now) }
    ensures within { IfOk result (λ x. (0 < x.0.count) × (x.0.count ≤ wanted)) }
{
    let [count, red, green, blue, rest @ ..] = bytes else {
        return Err(FieldFault::CUT_OFF);
    };
    let run = Run {
        count: *count,
        color: Color {
            red: *red,
            green: *green,
            blue: *blue,
        },
    };
    if run.can_stand(before, wanted) {
        return Ok((run, rest));
    }
    Err(FieldFault::CANNOT_STAND)
}
