// Frames: what each line does to the target, and the results of queries.
ghost use Rattle.std.specs.Prelude.{◌≡◌, ◌≤◌, ◌+◌, ◌*◌, ◌^◌, ℕ, None, Some, fold, length, map, replicate, option_map, unwrap_or, IfOk, OnOk};
ghost use Rattle.gfx_query.specs.Queries as model;
ghost use Rattle.gfx_query.specs.Seen.{query_seen, condition_seen, draw_seen, step_seen};
ghost use Rattle.gfx_query.specs.SeenFrames.{target_seen, progress_seen, AreAtMost};

use crate::counting::{DrawWords, InstanceRoom, count_draw};
use crate::script::{Condition, Draw, Query, Step};
use crate::sides::TargetSides;
use gfx_words::{StateWord, StencilWord};
use std::alloc::{AllocError, Global};

/// What stays over frames: the depth word of each pixel, and the words of draws.
#[derive(Drop)]
pub(crate) struct Target {
    pub words: Vec<u32>,
    pub draw: DrawWords,
}

/// All channels are written, and there is no test.
fn plain_state() -> StateWord
    ensures { result ≡ 15 }
{
    let Ok(word) = StateWord::read(15) else {
        unreachable!()
    };
    word
}

fn no_stencil() -> StencilWord
    ensures { result ≡ 0 }
{
    let Ok(word) = StencilWord::read(0) else {
        unreachable!()
    };
    word
}

impl Target {
    /// Depths and stencils of 0, all channels written, no tests.
    pub fn new(alloc: Global, sides: &TargetSides) -> Result<Target, AllocError>
        ensures { IfOk result (λ t. target_seen t ≡ model.first_target sides.now.width sides.now.height) }
    {
        Ok(Target {
            words: vec![in alloc; 0u32; sides.area()]?,
            draw: DrawWords {
                state: plain_state(),
                front: no_stencil(),
                back: no_stencil(),
            },
        })
    }
}

/// Gives each pixel a depth word.
fn clear(words: &mut [u32], word: u32)
    ensures { words.new ≡ replicate (length words.old) word }
{
    words.fill(word);
}

/// Whether the last result is not 0; without one it counts as such.
fn was_seen(last: Option<u128>) -> bool
    ensures { result ≡ model.was_seen last }
{
    match last {
        Some(count) => count != 0,
        None => true,
    }
}

/// Whether the last result is 0; without one it counts as such.
fn was_unseen(last: Option<u128>) -> bool
    ensures { result ≡ model.was_unseen last }
{
    match last {
        Some(count) => count == 0,
        None => true,
    }
}

/// Whether a draw is drawn, by the results of the frames before.
fn is_met(results: &[Option<u128>], condition: Condition) -> bool
    requires { length results.now ≡ 64 }
    ensures { result ≡ model.is_met results.now (condition_seen condition) }
{
    match condition {
        Condition::Always => true,
        Condition::Seen(query) => was_seen(results[query.number as usize]),
        Condition::Unseen(query) => was_unseen(results[query.number as usize]),
    }
}

/// Adds a draw's count to its query's sum.
fn add_count(sums: &mut [Option<u128>], query: Option<Query>, count: u64)
    requires long { length sums.old ≡ 64 }
    requires few { AreAtMost (2 ^ 127) sums.old }
    requires count { count ≤ 2 ^ 62 }
    ensures { sums.new ≡ model.with_count (option_map query_seen query) count sums.old }
{
    match query {
        Some(query) => {
            let sum = sum_of(sums, query) + u128::from(count);
            sums[query.number as usize] = Some(sum);
        }
        None => {}
    }
}

/// A query's sum so far.
fn sum_of(sums: &[Option<u128>], query: Query) -> u128
    requires long { length sums.now ≡ 64 }
    requires few { AreAtMost (2 ^ 127) sums.now }
    ensures value { result ≡ unwrap_or (model.result_of sums.now query.number) 0 }
    ensures few { result ≤ 2 ^ 127 }
{
    match sums[query.number as usize] {
        Some(sum) => sum,
        None => 0,
    }
}

/// Draws a draw that is drawn, and counts it for its query.
fn make_draw(
    sides: &TargetSides,
    target: &mut Target,
    sums: &mut [Option<u128>],
    draw: &Draw,
    room: &mut InstanceRoom,
) -> Result<(), AllocError>
    requires whole { length target.old.words.items ≡ sides.now.width * sides.now.height }
    requires long { length sums.old ≡ 64 }
    requires few { AreAtMost (2 ^ 127) sums.old }
    ensures made { OnOk result (progress_seen target.new sums.new ≡ model.after_draw sides.now.width sides.now.height (progress_seen target.old sums.old) (draw_seen draw.now)) }
    ensures whole { length target.new.words.items ≡ length target.old.words.items }
    ensures most { OnOk result ((m : ℕ) → AreAtMost m sums.old → AreAtMost (m + 2 ^ 62) sums.new) }
{
    let words = target.draw;
    let count = count_draw(
        &mut target.words,
        sides,
        &words,
        &draw.vertices,
        &draw.instances,
        room,
    )?;
    add_count(sums, draw.query, count);
    Ok(())
}

/// Follows a line of a frame.
fn follow(
    sides: &TargetSides,
    target: &mut Target,
    results: &[Option<u128>],
    sums: &mut [Option<u128>],
    step: &Step,
    room: &mut InstanceRoom,
) -> Result<(), AllocError>
    requires whole { length target.old.words.items ≡ sides.now.width * sides.now.height }
    requires results { length results.now ≡ 64 }
    requires long { length sums.old ≡ 64 }
    requires few { AreAtMost (2 ^ 127) sums.old }
    ensures followed { OnOk result (progress_seen target.new sums.new ≡ model.after_step sides.now.width sides.now.height results.now (progress_seen target.old sums.old) (step_seen step.now)) }
    ensures whole { length target.new.words.items ≡ length target.old.words.items }
    ensures most { OnOk result ((m : ℕ) → AreAtMost m sums.old → AreAtMost (m + 2 ^ 62) sums.new) }
{
    match step {
        Step::Clear(word) => clear(&mut target.words, *word),
        Step::State(word) => target.draw.state = *word,
        Step::Stencil(front, back) => {
            target.draw.front = *front;
            target.draw.back = *back;
        }
        Step::Draw(draw) => {
            if is_met(results, draw.condition) {
                make_draw(sides, target, sums, draw, room)?;
            }
        }
    }
    Ok(())
}

/// Follows the lines of a frame, and adds up the counts of its queries from none.
pub(crate) fn run_frame(
    sides: &TargetSides,
    target: &mut Target,
    results: &[Option<u128>],
    sums: &mut [Option<u128>],
    steps: &[Step],
    room: &mut InstanceRoom,
) -> Result<(), AllocError>
    requires whole { length target.old.words.items ≡ sides.now.width * sides.now.height }
    requires results { length results.now ≡ 64 }
    requires sums { sums.old ≡ model.no_results }
    ensures run { OnOk result (progress_seen target.new sums.new ≡ model.frame_after sides.now.width sides.now.height results.now (target_seen target.old) (map step_seen steps.now)) }
    ensures whole { length target.new.words.items ≡ length target.old.words.items }
{
    for step in steps {
        follow(sides, target, results, sums, step, room)?;
    }
    Ok(())
}
