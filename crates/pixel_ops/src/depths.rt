// Depth and stencil tests, and the operations on the stencil.
ghost use Rattle.std.specs.Prelude.{◌≡◌, ◌≤◌};
ghost use Rattle.gfx_model.specs.Pixel as model;

use gfx_words::StencilWord;

/// How a new number stands to the stored one, by the number of the test: 1 less, 2 less or equal, 3 equal, 4 greater or
/// equal, 5 greater, 6 not equal, 7 never. Any other passes.
fn compares(test: u8, new: u32, stored: u32) -> bool
    ensures { result ≡ model.compares test new stored }
{
    match test {
        1 => new < stored,
        2 => new <= stored,
        3 => new == stored,
        4 => new >= stored,
        5 => new > stored,
        6 => new != stored,
        7 => false,
        _ => true,
    }
}

/// Whether a fragment's depth passes the depth test of a number from 0 to 8 against the stored depth. Test 0 is none, and passes.
pub fn depth_test(test: u8, fragment: u32, stored: u32) -> bool
    requires { test ≤ 8 }
    ensures { result ≡ model.passes_depth test fragment stored }
{
    compares(test, fragment, stored)
}

/// The stencil after the operation of a number from 0 to 7: zero, keep, replace by the reference, increment wrapping and
/// saturating, decrement wrapping and saturating, invert.
pub fn stencil_step(op: u8, stored: u8, reference: u8) -> u8
    requires { op ≤ 7 }
    ensures { result ≡ model.stencil_after op stored reference }
{
    match op {
        0 => 0,
        1 => stored,
        2 => reference,
        3 => stored.wrapping_add(1),
        4 => stored.saturating_add(1),
        5 => stored.wrapping_sub(1),
        6 => stored.saturating_sub(1),
        _ => 255 - stored,
    }
}

/// Whether a pixel's stencil passes the test of a word: the masked reference is compared with the masked stencil. The word
/// 0 is no stencil test, and passes.
pub fn passes_stencil(word: &StencilWord, stencil: u8) -> bool
    ensures { result ≡ model.passes_stencil word.now stencil }
{
    word.word() == 0
        || compares(
            word.test(),
            (word.reference() & word.mask()) as u32,
            (stencil & word.mask()) as u32,
        )
}

/// The stencil after an operation of a word. Under the word 0 it stays.
pub(crate) fn stencil_by(word: &StencilWord, op: u8, stencil: u8) -> u8
    requires { op ≤ 7 }
    ensures { result ≡ model.stencil_by word.now op stencil }
{
    if word.word() == 0 {
        stencil
    } else {
        stencil_step(op, stencil, word.reference())
    }
}
