// Numbers as a picture.
ghost use Rattle.std.specs.Prelude.{◌≡◌, ◌++◌, flat_map, IfOk};
ghost use Rattle.scene_model.specs.Output.{picture_header};
ghost use Rattle.frame_blame.specs.Blame.{number_bytes, numbers_text};

use std::alloc::{AllocError, Global};

/// The three bytes of a number, the greatest first; of a number that they do not tell its rest.
fn bytes_of(number: u32) -> [u8; 3]
    ensures { result ≡ number_bytes number }
{
    [
        ((number >> 16) % 256) as u8,
        ((number >> 8) % 256) as u8,
        (number % 256) as u8,
    ]
}

/// Puts numbers behind a text, each in three bytes.
fn put_numbers(text: &mut Vec<u8>, numbers: &[u32]) -> Result<(), AllocError>
    ensures { IfOk result (λ _. text.new.items ≡ text.old.items ++ flat_map number_bytes numbers.now) }
{
    for number in numbers {
        text.extend_from_slice(&bytes_of(*number))?;
    }
    Ok(())
}

/// The text of numbers as a picture of these sides in the P6 format: each in the three bytes of its pixel, the greatest first. `Err` only for
/// want of memory.
pub fn numbers_text(
    alloc: Global,
    width: u16,
    height: u16,
    numbers: &[u32],
) -> Result<Vec<u8>, AllocError>
    ensures { IfOk result (λ text. text.items ≡ numbers_text width height numbers.now) }
{
    let header = format!(in alloc; "P6\n{width} {height}\n255\n")?;
    let mut text = header.into_bytes();
    put_numbers(&mut text, numbers)?;
    Ok(text)
}
