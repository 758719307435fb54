// What one fragment does to a pixel's depth and stencil.
ghost use Rattle.std.specs.Prelude.{◌≡◌, ◌<◌, ◌≤◌, ◌+◌, ◌*◌, ◌^◌, ◌&&◌, Some};
ghost use Rattle.gfx_model.specs.Words.{depth_test_of};
ghost use Rattle.gfx_model.specs.Pixel.{pixel_step, step_with_depth, passes_stencil as stencil_passes, passes_depth, stencil_by as stencil_after_by};
ghost use Rattle.pixel_ops.specs.Tests.{passes_tests};
ghost use Rattle.gfx_query.specs.Counting.{pixel_of, word_of, white};

use gfx_words::{StateWord, StencilWord};
use pixel_ops::{depth_test, passes_stencil, stencil_step};

/// The words by which the fragments of a triangle are tested.
#[derive(Clone, Copy)]
pub(crate) struct Tests {
    pub state: StateWord,
    pub stencil: StencilWord,
}

/// A pixel's depth word after a fragment, and whether the fragment passed both tests.
#[derive(Clone, Copy)]
pub(crate) struct Tested {
    pub word: u32,
    pub passes: bool,
}

/// The stencil after an operation of a word. Under the word 0 it stays.
#[inline(always)]
fn stencil_by(word: &StencilWord, op: u8, stencil: u8) -> u8
    requires { op ≤ 7 }
    ensures { result ≡ stencil_after_by word.now op stencil }
{
    if word.word() == 0 {
        stencil
    } else {
        stencil_step(op, stencil, word.reference())
    }
}

#[inline(always)]
fn joined(depth: u32, stencil: u8) -> u32
    requires { depth < 2 ^ 24 }
    ensures { result ≡ depth + 2 ^ 24 * stencil }
{
    depth + ((stencil as u32) << 24)
}

/// A pixel by its stored depth and stencil.
#[inline(always)]
fn after_tests(depth: u32, stencil: u8, new: u32, tests: &Tests) -> Tested
    requires stored { depth < 2 ^ 24 }
    requires fragment { new < 2 ^ 24 }
    ensures word { result.word ≡ word_of (step_with_depth white depth stencil (record { color = white; depth = new }) tests.now.state tests.now.stencil) }
    ensures passes { result.passes ≡ (stencil_passes tests.now.stencil stencil && passes_depth (depth_test_of tests.now.state) new depth) }
{
    let word = &tests.stencil;
    if !passes_stencil(word, stencil) {
        let failed = stencil_by(word, word.on_stencil_fail(), stencil);
        return Tested {
            word: joined(depth, failed),
            passes: false,
        };
    }
    if !depth_test(tests.state.depth_test(), new, depth) {
        let behind = stencil_by(word, word.on_depth_fail(), stencil);
        return Tested {
            word: joined(depth, behind),
            passes: false,
        };
    }
    let kept = if tests.state.writes_depth() {
        new
    } else {
        depth
    };
    Tested {
        word: joined(kept, stencil_by(word, word.on_pass(), stencil)),
        passes: true,
    }
}

/// The pixel of a depth word after a fragment of a depth.
#[inline(always)]
pub(crate) fn after_fragment(word: u32, depth: u32, tests: &Tests) -> Tested
    requires { depth ≤ 16777215 }
    ensures word { result.word ≡ word_of (pixel_step (pixel_of word) (record { color = white; depth = depth }) tests.now.state tests.now.stencil) }
    ensures passes { result.passes ≡ passes_tests (Some word) depth tests.now.state tests.now.stencil }
{
    after_tests(word & 0xff_ffff, (word >> 24) as u8, depth, tests)
}
