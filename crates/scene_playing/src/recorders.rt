// Who records the jobs of a frame's encoders, and brings what they recorded.
ghost use Rattle.std.specs.Prelude.{◌≡◌, ◌≤◌, [], IfOk, length, vec_capacity};

use crate::ordered::{entries_at, record_entries};
use block_recording::{Desk, Job, Steps, help};
use draw_encoder::{Bundle, Naming, Shared};
use io_edge::Gate;
use scene_text::Journal;
use std::alloc::{AllocError, Global};
use std::mem;
use std::sync::Wait;

/// How many encoders a frame can have.
const MOST_ENCODERS: usize = 8;

/// Who records the jobs of a frame's encoders, and brings their bundles. What is known of a job and of a bundle is known by its type.
pub(crate) trait Recorders<J, B> {
    ghost use Rattle.std.specs.Prelude.{ℕ, ◌+◌, ◌<◌};

    /// The bundles of so many jobs can be brought.
    ghost owes: { Self → ℕ → Type 0 };

    /// Takes the job of the frame's next encoder.
    fn take(&mut self, job: J)
        requires { (n : ℕ) × (n < 8) × owes self.old n }
        ensures { (n : ℕ) → owes self.old n → owes self.new (n + 1) };

    /// Records what this thread records first, when all jobs of the frame of that number were taken.
    fn work(&mut self, number: u32)
        ensures { (n : ℕ) → owes self.old n → owes self.new n };

    /// The bundle of a job, one each time. It may wait for it.
    fn bring(&mut self) -> B
        requires { (n : ℕ) × owes self.old (n + 1) }
        ensures { (n : ℕ) → owes self.old (n + 1) → owes self.new n };
}

/// This thread records the first job, and recorder threads the others, which wait at a desk.
#[derive(Drop)]
pub(crate) struct AtDesk<'r, 'g, 'd, 't, C: Naming, R, G> {
    rt: &'r R,
    gate: &'g G,
    shared: &'t Shared<C>,
    desk: &'d Desk<'t, C>,
    mine: Option<Job<'t, C>>,
}

impl<'r, 'g, 'd, 't, C: Naming, R, G> AtDesk<'r, 'g, 'd, 't, C, R, G> {
    /// By a desk, for encoders that end into the queue.
    pub(crate) fn new(
        rt: &'r R,
        gate: &'g G,
        shared: &'t Shared<C>,
        desk: &'d Desk<'t, C>,
    ) -> AtDesk<'r, 'g, 'd, 't, C, R, G> {
        AtDesk {
            rt,
            gate,
            shared,
            desk,
            mine: None,
        }
    }
}

impl<'r, 'g, 'd, 't, C: Naming, R: Wait, G: Gate> Recorders<Job<'t, C>, Bundle<C>>
    for AtDesk<'r, 'g, 'd, 't, C, R, G> {
    ghost owes = { λ s n. Unit {0} };

    fn take(&mut self, job: Job<'t, C>) {
        if self.mine.is_none() {
            self.mine = Some(job);
        } else {
            self.desk.put(self.rt, job);
        }
    }

    fn work(&mut self, number: u32) {
        let _ = number;
        if let Some(job) = mem::replace(&mut self.mine, None) {
            job.record(self.rt, self.gate);
        }
    }

    // Records what no recorder took before it waits.
    fn bring(&mut self) -> Bundle<C> {
        help(self.rt, self.gate, self.desk);
        self.shared.collect(self.rt)
    }
}

/// This thread records all jobs: their items in the order of a journal where one is given, and else one job after another.
#[derive(Drop)]
pub(crate) struct Here<'a, 't, C: Naming> {
    order: Option<&'a Journal>,
    begun: Vec<Steps<'t, C>>,
    ghost room: { 8 ≤ vec_capacity begun },
}

impl<'a, 't, C: Naming> Here<'a, 't, C> {
    /// No job was taken yet. `Err` only for want of memory.
    pub(crate) fn new(
        alloc: Global,
        order: Option<&'a Journal>,
    ) -> Result<Here<'a, 't, C>, AllocError>
        ensures { IfOk result (λ h. h.begun.items ≡ []) }
    {
        let begun = Vec::with_capacity(alloc, MOST_ENCODERS)?;
        Ok(Here { order, begun })
    }
}

impl<'a, 't, C: Naming> Recorders<Job<'t, C>, Bundle<C>> for Here<'a, 't, C> {
    ghost use Rattle.std.specs.Prelude.{◌≡◌, length};

    ghost owes = { λ s n. length s.begun.items ≡ n };

    fn take(&mut self, job: Job<'t, C>) {
        self.begun.push_reserved(job.into_steps());
    }

    fn work(&mut self, number: u32) {
        if let Some(journal) = self.order {
            record_entries(&mut self.begun, entries_at(journal, number));
        }
    }

    fn bring(&mut self) -> Bundle<C> {
        self.begun.remove(0).finish()
    }
}
