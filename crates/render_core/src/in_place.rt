// The link that renders in `give`.
ghost use Rattle.std.specs.Prelude.{◌≡◌, ◌+◌, ◌-◌, ◌%◌, [], ◌∷◌, ◌++◌, length, ◌<◌, ◌≤◌, IfOk, IfErr, IsSomeAnd, true};
ghost use Rattle.frame_record.specs.Links.{frames_of, CameBack};
ghost use Rattle.frame_swap.specs.Views.{api, later_of, empty_slots};
ghost use Rattle.render_core.specs.Rendered.{AddsRendered, AreRendered, seen_by};

use crate::renderer::Renderer;
use atomic_table::{Seat, Table};
use frame_record::{Frame, FrameLink, RenderedFrame};
use frame_swap::{Content, FrameTable, View, back_here, claim_all, give_here, return_here};
use int_raster::Rasterizer;
use io_edge::Sink;
use remembered::Remembered;
use std::alloc::Global;

/// A link that renders in `give`, by a rasterizer of its own, and keeps the rendered frames until they are taken back: at most as
/// many as the latency. It may go to another thread where its sink and its rasterizer may.
#[derive(Drop)]
pub struct InPlaceLink<P: Sink, D> {
    table: FrameTable,
    seat: Seat<Option<Content>, View>,
    renderer: Renderer<P>,
    rasterizer: D,
    opening: Remembered<Renderer<P>>,
    latency: u8,
    next: u8,
    oldest: u8,
    ghost counts: { (table.shared.table_id.words ≡ latency) × (table.shared.table_id.slots ≡ latency) },
    ghost keyed: { table.shared.key ≡ latency },
    ghost some_word: { 0 < latency },
    ghost seated: { seat.table_id ≡ table.shared.table_id },
    ghost is_api: { (seat.me.0.side ≡ api) × (seat.me.0.is_whole ≡ true) },
    ghost claimed: { seat.me.0.claimed ≡ latency },
    ghost next_is: { next ≡ length seat.me.0.given % latency },
    ghost oldest_is: { oldest ≡ length seat.me.0.back % latency },
    ghost few: { (length seat.me.0.back ≤ length seat.me.0.given) × (length seat.me.0.given ≤ length seat.me.0.back + latency) },
    ghost has: { seat.me.1 ≡ empty_slots latency (length seat.me.0.given) (length seat.me.0.back + latency - length seat.me.0.given) },
    ghost all_rendered: { (seat.me.0.taken ≡ seat.me.0.given) × (seat.me.0.given ≡ frames_of seat.me.0.returned) },
    ghost back_is: { seat.me.0.returned ≡ seat.me.0.back ++ later_of seat.me.0.returned seat.me.0.back },
    ghost frames_are: { ∥ AreRendered (seen_by P.held P.tally P.faults P.sure opening.value) seat.me.0.returned (seen_by P.held P.tally P.faults P.sure renderer) ∥₁ },
}

impl<P: Sink, D: Rasterizer + Drop> InPlaceLink<P, D> {
    /// A link over a renderer, at which up to `latency` frames may be out, at least 1. For want of memory the renderer comes back.
    pub fn new(
        alloc: Global,
        renderer: Renderer<P>,
        rasterizer: D,
        latency: u8,
    ) -> Result<InPlaceLink<P, D>, Renderer<P>>
        requires { 1 ≤ latency }
        ensures comes_back { IfErr result (λ r. r ≡ renderer) }
        ensures new { IfOk result (λ l. (l.seat.me.0.given ≡ []) × (l.seat.me.0.back ≡ []) × (l.seat.me.0.returned ≡ []) × (l.latency ≡ latency) × (l.opening.value ≡ renderer)) }
    {
        let Ok(words) = Vec::from_elem(alloc, 0u64, latency as usize) else {
            return Err(renderer);
        };
        let Ok((table, mut seat)) = Table::vacant(
            alloc,
            words.as_slice(),
            latency as usize,
            &latency,
        ) else {
            return Err(renderer);
        };
        claim_all(&table, &mut seat, latency);
        let opening = Remembered::of(&renderer);
        Ok(InPlaceLink {
            table,
            seat,
            renderer,
            rasterizer,
            opening,
            latency,
            next: 0,
            oldest: 0,
        })
    }

    /// The renderer, which is where the frames that were given leave the one handed to `new`. Where no frame is out, those came back.
    pub fn into_renderer(self) -> Renderer<P>
        ensures frames { ∥ AreRendered (seen_by P.held P.tally P.faults P.sure self.opening.value) self.seat.me.0.returned (seen_by P.held P.tally P.faults P.sure result) ∥₁ }
        ensures all_back { length self.seat.me.0.given ≡ length self.seat.me.0.back → (self.seat.me.0.returned ≡ self.seat.me.0.back) × (self.seat.me.0.given ≡ frames_of self.seat.me.0.back) }
    {
        self.renderer
    }

    /// Renders a frame, and keeps it with the outcome. Fewer frames than the latency are out.
    fn render(&mut self, frame: Frame)
        requires room { length self.old.seat.me.0.given < length self.old.seat.me.0.back + self.old.latency }
        ensures lists { (self.new.seat.me.0.given ≡ self.old.seat.me.0.given ++ frame ∷ []) × (self.new.seat.me.0.back ≡ self.old.seat.me.0.back) }
        ensures rendered { AddsRendered frame self.old.seat.me.0.returned (seen_by P.held P.tally P.faults P.sure self.old.renderer) self.new.seat.me.0.returned (seen_by P.held P.tally P.faults P.sure self.new.renderer) }
        ensures same { (self.new.opening ≡ self.old.opening) × (self.new.latency ≡ self.old.latency) }
    {
        let table = &self.table;
        let place = self.next as usize;
        let taken = give_here(table, &mut self.seat, place, frame);
        let rendered = self.renderer.render(&mut self.rasterizer, taken);
        return_here(table, &mut self.seat, place, rendered);
        self.next = (self.next + 1) % self.latency;
    }

    /// The oldest frame that is out comes back with its outcome. A frame is out.
    fn take_oldest(&mut self) -> RenderedFrame
        requires some_out { length self.old.seat.me.0.back < length self.old.seat.me.0.given }
        ensures given { (self.new.seat.me.0.given ≡ self.old.seat.me.0.given) × (self.new.seat.me.0.returned ≡ self.old.seat.me.0.returned) }
        ensures back { CameBack self.old.seat.me.0.given self.old.seat.me.0.back self.new.seat.me.0.back result }
        ensures outcome { self.old.seat.me.0.returned ≡ self.old.seat.me.0.back ++ result ∷ later_of self.old.seat.me.0.returned self.new.seat.me.0.back }
        ensures same { (self.new.opening ≡ self.old.opening) × (self.new.latency ≡ self.old.latency) }
    {
        let table = &self.table;
        let rendered = back_here(table, &mut self.seat, self.oldest as usize);
        self.oldest = (self.oldest + 1) % self.latency;
        rendered
    }
}

impl<P: Sink, D: Rasterizer + Drop> FrameLink for InPlaceLink<P, D> {
    ghost use Rattle.render_core.specs.declared.renderer.Renderer.{Renderer};

    ghost given = { λ l. l.seat.me.0.given };

    ghost back = { λ l. l.seat.me.0.back };

    ghost latency = { λ l. l.latency };

    ghost Origin = { Renderer P };

    ghost origin = { λ l. l.opening.value };

    fn give(&mut self, frame: Frame)
        requires room { length self.old.seat.me.0.given < length self.old.seat.me.0.back + self.old.latency }
        ensures lists { (self.new.seat.me.0.given ≡ self.old.seat.me.0.given ++ frame ∷ []) × (self.new.seat.me.0.back ≡ self.old.seat.me.0.back) }
        ensures rendered { AddsRendered frame self.old.seat.me.0.returned (seen_by P.held P.tally P.faults P.sure self.old.renderer) self.new.seat.me.0.returned (seen_by P.held P.tally P.faults P.sure self.new.renderer) }
        ensures same { (self.new.opening ≡ self.old.opening) × (self.new.latency ≡ self.old.latency) }
    {
        self.render(frame);
    }

    fn try_take_back(&mut self) -> Option<RenderedFrame>
        requires some_out { length self.old.seat.me.0.back < length self.old.seat.me.0.given }
        ensures given { (self.new.seat.me.0.given ≡ self.old.seat.me.0.given) × (self.new.seat.me.0.returned ≡ self.old.seat.me.0.returned) }
        ensures back { IsSomeAnd result (λ r. CameBack self.old.seat.me.0.given self.old.seat.me.0.back self.new.seat.me.0.back r) }
        ensures outcome { IsSomeAnd result (λ r. self.old.seat.me.0.returned ≡ self.old.seat.me.0.back ++ r ∷ later_of self.old.seat.me.0.returned self.new.seat.me.0.back) }
        ensures same { (self.new.opening ≡ self.old.opening) × (self.new.latency ≡ self.old.latency) }
    {
        Some(self.take_oldest())
    }

    fn take_back(&mut self) -> RenderedFrame
        requires some_out { length self.old.seat.me.0.back < length self.old.seat.me.0.given }
        ensures given { (self.new.seat.me.0.given ≡ self.old.seat.me.0.given) × (self.new.seat.me.0.returned ≡ self.old.seat.me.0.returned) }
        ensures back { CameBack self.old.seat.me.0.given self.old.seat.me.0.back self.new.seat.me.0.back result }
        ensures outcome { self.old.seat.me.0.returned ≡ self.old.seat.me.0.back ++ result ∷ later_of self.old.seat.me.0.returned self.new.seat.me.0.back }
        ensures same { (self.new.opening ≡ self.old.opening) × (self.new.latency ≡ self.old.latency) }
    {
        self.take_oldest()
    }
}

fn sent<T: Send>(_value: &T) {}

// Has the check show it here: whoever puts a context with this link behind a lock stands on it.
fn link_may_go<P: Sink + Send, D: Send>(link: &InPlaceLink<P, D>) {
    sent(link)
}
