//! What a player of a scene has reached that goes frame by frame, and the laws by which it goes on.
//!
//! The laws are functions without parameters: each has an empty body, and its contract is the law.
#![tactic(auto)]

ghost use Rattle.scene_progress.specs.Laws.{FirstLaw, NextLaw, PlanLaw, PlanCountLaw, NoFramesLaw, FramesMoreLaw, FrameCountLaw, NoneLawfulLaw, LawfulMoreLaw, LawfulCountLaw, FramesFrontLaw, PicturesFrontLaw, PictureCountLaw, LawfulStateLaw, GivenLaw, FrameNumberLaw, ReportLaw, NotedMoreLaw};

/// Before a scene's first frame nothing is made and named, and the state before the next frame is that after all lines of this one.
pub fn next_law()
    ensures first { FirstLaw }
    ensures next { NextLaw }
{}

/// A scene has a plan for each of its frames: that by the states after the frame's `before` lines and after all its lines.
pub fn plan_law()
    ensures plan { PlanLaw }
    ensures count { PlanCountLaw }
{}

/// With one frame more in the journal a scene has one frame more by index: that of the state at its start.
pub fn frames_law()
    ensures none { NoFramesLaw }
    ensures more { FramesMoreLaw }
    ensures count { FrameCountLaw }
{}

/// A lawful journal stays lawful with a lawful frame more, and has at most as many frames as the scene.
pub fn lawful_law()
    ensures none { NoneLawfulLaw }
    ensures more { LawfulMoreLaw }
    ensures count { LawfulCountLaw }
{}

/// The first frames of a journal give the first of its frames by index and of its pictures, one for each frame of the journal.
pub fn front_law()
    ensures frames { FramesFrontLaw }
    ensures pictures { PicturesFrontLaw }
    ensures count { PictureCountLaw }
{}

/// In the state after a frame's `before` lines each name stands for a handle that was given, and the state is lawful and of that frame.
pub fn given_law()
    ensures lawful { LawfulStateLaw }
    ensures given { GivenLaw }
    ensures frame { FrameNumberLaw }
{}

/// The lines of the frames' numbers of items and of dropped lines are the report, and each frame adds its own.
pub fn noted_law()
    ensures report { ReportLaw }
    ensures more { NotedMoreLaw }
{}
