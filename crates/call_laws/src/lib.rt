//! What the calls of the API thread write for the renderer: commands, payloads and destroys, and that they say
//! what the calls do to the definition's world.
//!
//! The laws are functions without parameters: each has an empty body, and its contract is the law.
#![tactic(auto)]

ghost use Rattle.call_laws.specs.Laws.{CallLaw, FrameSaysLaw, NextLaw, RunLaw};

/// What is written in a frame says the changes and deaths of the state of the calls. Each accepted call keeps that:
/// it writes a command for each change, with the payload's place, and a destroy for each death.
pub fn call_law()
    ensures { CallLaw }
{}

/// What the calls of a frame wrote, with items whose handles are of things that live or die in that frame and
/// views whose targets are such things, says what the definition's frame has.
pub fn frame_says_law()
    ensures { FrameSaysLaw }
{}

/// Where what was written says a frame, the next frame begins with nothing written, which says the world behind the
/// frame without what died in it.
pub fn next_law()
    ensures { NextLaw }
{}

/// From accepted calls to pictures: the frames of a context, rendered by index in order from empty stores, have
/// the pictures of the definition's frames.
pub fn run_law()
    ensures { RunLaw }
{}
