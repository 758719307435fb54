// The link that renders nothing.
ghost use Rattle.std.specs.Prelude.{◌≡◌, ◌+◌, ◌-◌, ◌%◌, [], ◌∷◌, ◌++◌, length, ◌<◌, ◌≤◌, IfOk, IsSomeAnd, true};
ghost use Rattle.std.specs.List.{list_all};
ghost use Rattle.frame_record.specs.Links.{frames_of, CameBack};
ghost use Rattle.frame_swap.specs.Views.{api, later_of, empty_slots};
ghost use Rattle.frame_keeping.specs.Shown.{IsShown, is_shown};

use atomic_table::{Seat, Table};
use frame_record::{Frame, FrameLink, Outcome, RenderedFrame};
use frame_swap::{Content, FrameTable, View, back_here, claim_all, give_here, return_here};
use std::alloc::{AllocError, Global};

/// A link that keeps the frames that are given, at most as many as the latency, until they are taken back, each as shown.
#[derive(Drop)]
pub struct KeepingLink {
    table: FrameTable,
    seat: Seat<Option<Content>, View>,
    latency: u8,
    next: u8,
    oldest: u8,
    ghost counts: { (table.shared.table_id.words ≡ latency) × (table.shared.table_id.slots ≡ latency) },
    ghost keyed: { table.shared.key ≡ latency },
    ghost some_word: { 0 < latency },
    ghost seated: { seat.table_id ≡ table.shared.table_id },
    ghost is_api: { (seat.me.0.side ≡ api) × (seat.me.0.is_whole ≡ true) },
    ghost claimed: { seat.me.0.claimed ≡ latency },
    ghost next_is: { next ≡ length seat.me.0.given % latency },
    ghost oldest_is: { oldest ≡ length seat.me.0.back % latency },
    ghost few: { (length seat.me.0.back ≤ length seat.me.0.given) × (length seat.me.0.given ≤ length seat.me.0.back + latency) },
    ghost has: { seat.me.1 ≡ empty_slots latency (length seat.me.0.given) (length seat.me.0.back + latency - length seat.me.0.given) },
    ghost all_kept: { (seat.me.0.taken ≡ seat.me.0.given) × (seat.me.0.given ≡ frames_of seat.me.0.returned) },
    ghost back_is: { seat.me.0.returned ≡ seat.me.0.back ++ later_of seat.me.0.returned seat.me.0.back },
    ghost all_shown: { list_all is_shown seat.me.0.returned ≡ true },
}

impl KeepingLink {
    /// A link at which up to `latency` frames may be out, at least 1. `Err` only for want of memory.
    pub fn new(alloc: Global, latency: u8) -> Result<KeepingLink, AllocError>
        requires { 1 ≤ latency }
        ensures { IfOk result (λ l. (l.seat.me.0.given ≡ []) × (l.seat.me.0.back ≡ []) × (l.latency ≡ latency)) }
    {
        let words = Vec::from_elem(alloc, 0u64, latency as usize)?;
        let (table, mut seat) = Table::vacant(alloc, words.as_slice(), latency as usize, &latency)?;
        claim_all(&table, &mut seat, latency);
        Ok(KeepingLink {
            table,
            seat,
            latency,
            next: 0,
            oldest: 0,
        })
    }

    /// The oldest frame that is out comes back, as shown.
    fn take_oldest(&mut self) -> RenderedFrame
        requires some_out { length self.old.seat.me.0.back < length self.old.seat.me.0.given }
        ensures given { self.new.seat.me.0.given ≡ self.old.seat.me.0.given }
        ensures back { CameBack self.old.seat.me.0.given self.old.seat.me.0.back self.new.seat.me.0.back result }
        ensures shown { IsShown result }
        ensures same { self.new.latency ≡ self.old.latency }
    {
        let table = &self.table;
        let rendered = back_here(table, &mut self.seat, self.oldest as usize);
        self.oldest = (self.oldest + 1) % self.latency;
        rendered
    }
}

impl FrameLink for KeepingLink {
    ghost given = { λ l. l.seat.me.0.given };

    ghost back = { λ l. l.seat.me.0.back };

    ghost latency = { λ l. l.latency };

    ghost Origin = { Unit {0} };

    ghost origin = { λ l. tt };

    fn give(&mut self, frame: Frame) {
        let table = &self.table;
        let place = self.next as usize;
        let frame = give_here(table, &mut self.seat, place, frame);
        let outcome = Outcome::Shown;
        return_here(
            table,
            &mut self.seat,
            place,
            RenderedFrame { frame, outcome },
        );
        self.next = (self.next + 1) % self.latency;
    }

    fn try_take_back(&mut self) -> Option<RenderedFrame>
        requires some_out { length self.old.seat.me.0.back < length self.old.seat.me.0.given }
        ensures given { self.new.seat.me.0.given ≡ self.old.seat.me.0.given }
        ensures back { IsSomeAnd result (λ r. CameBack self.old.seat.me.0.given self.old.seat.me.0.back self.new.seat.me.0.back r × IsShown r) }
        ensures same { self.new.latency ≡ self.old.latency }
    {
        Some(self.take_oldest())
    }

    fn take_back(&mut self) -> RenderedFrame
        requires some_out { length self.old.seat.me.0.back < length self.old.seat.me.0.given }
        ensures given { self.new.seat.me.0.given ≡ self.old.seat.me.0.given }
        ensures back { CameBack self.old.seat.me.0.given self.old.seat.me.0.back self.new.seat.me.0.back result }
        ensures shown { IsShown result }
        ensures same { self.new.latency ≡ self.old.latency }
    {
        self.take_oldest()
    }
}
