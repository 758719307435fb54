// What came of a frame's steps.

use frame_steps::StepFault;
use trace_lines::Doer;

/// How the steps of a frame ended: whose each deed is, where all pictures were put, or why not all were.
#[derive(Drop)]
pub struct StepsEnd {
    pub doers: Vec<Doer>,
    pub fault: Option<StepFault>,
}

/// A sink that has the pictures of a frame's steps more, and how they ended.
#[derive(Drop)]
pub struct Stepped<P: Drop> {
    pub sink: P,
    pub end: StepsEnd,
}
