// The bundle queue: what its passes know, its rule, and the kinds of step.
ghost use Rattle.std.specs.Prelude.{◌≡◌, IfErr};

use crate::bundle::Bundle;
use crate::naming::Naming;
use crossbeam_queue::RuledArrayQueue;
use crossbeam_queue::protocol::{Lesson, Outcome, Protocol};
use std::alloc::{AllocError, Global};
use std::marker::Model;
use std::sync::Wait;

/// What a pass of the queue knows: of which seats it has put bundles in, and of which it has taken some out. Contracts see it as a
/// `PassView`; no value of it is made.
pub struct PassState {
    nothing: (),
}

impl Model for PassState {
    ghost use Rattle.draw_encoder.specs.Posts.{PassView, new_pass};

    ghost Value = { PassView };

    ghost view = { λ s. new_pass };
}

/// The rule of the queue: of each seat it has as many bundles as were put in and not taken out.
pub struct Balance;

impl<C: Naming> Protocol<Bundle<C>, PassState> for Balance {
    ghost use Rattle.draw_encoder.specs.Posts.{IsBalanced, new_pass};

    ghost holds = { IsBalanced };

    ghost first = { new_pass };
}

/// A bundle is put into the queue.
pub struct Post;

impl<C: Naming> Outcome<Bundle<C>, PassState> for Post {
    ghost use Rattle.draw_encoder.specs.Posts.{Posts};

    ghost then = { Posts };
}

impl<C: Naming> Lesson<Bundle<C>, PassState> for Post {
    ghost use Rattle.std.specs.Prelude.{⊤};

    ghost fact = { λ v items. ⊤ };
}

/// A bundle is taken out of the queue.
pub struct Take;

impl<C: Naming> Outcome<Bundle<C>, PassState> for Take {
    ghost use Rattle.draw_encoder.specs.Posts.{Takes};

    ghost then = { Takes };
}

impl<C: Naming> Lesson<Bundle<C>, PassState> for Take {
    ghost use Rattle.std.specs.Prelude.{⊤};

    ghost fact = { λ v items. ⊤ };
}

/// The queue of the bundles that wait, with 8 places. Each call makes a pass of its own.
#[derive(Drop)]
pub struct BundleQueue<C: Naming> {
    ring: RuledArrayQueue<Bundle<C>, PassState, Balance>,
}

impl<C: Naming> BundleQueue<C> {
    /// A queue with no bundle. `Err` only for want of memory.
    pub fn new(alloc: Global) -> Result<BundleQueue<C>, AllocError> {
        let ring = RuledArrayQueue::ruled(alloc, 8)?.0;
        Ok(BundleQueue { ring })
    }

    /// Puts a bundle behind all others. `Err` only where the queue was full at one moment of the call; the bundle comes back.
    pub fn push<R: Wait>(&self, rt: &R, bundle: Bundle<C>) -> Result<(), Bundle<C>>
        ensures back { IfErr result (λ b. b ≡ bundle) }
    {
        let mut pass = self.ring.pass();
        self.ring.push_as::<Post, R>(rt, &mut pass, bundle)
    }

    /// Takes the oldest bundle out. `None` only where the queue was empty at one moment of the call.
    pub fn pop<R: Wait>(&self, rt: &R) -> Option<Bundle<C>> {
        let mut pass = self.ring.pass();
        self.ring.pop_as::<Take, R>(rt, &mut pass)
    }

    /// Whether the queue was empty at one moment of the call.
    pub fn is_empty(&self) -> bool {
        let mut pass = self.ring.pass();
        self.ring.is_empty_as::<Take>(&mut pass)
    }
}
