// Draws a frame's views in their order.
ghost use Rattle.std.specs.Prelude.{◌≡◌, ◌<◌, ◌+◌, [], ◌∷◌, ◌++◌, filter, flat_map, map, IfOk, OnOk};
ghost use Rattle.std.specs.List.{list_any, AllByRecursion};
ghost use Rattle.gfx_model.specs.Views.{view_count, position_of_view};
ghost use Rattle.gfx_model.specs.World.{is_of_view};
ghost use Rattle.trace_laws.specs.ByIndex.{deeds_in, deeds_in_view};
ghost use Rattle.frame_tracing.specs.Tracing.{deeds_of_parts};
ghost use Rattle.frame_record.specs.Ordered.{position_of};
ghost use Rattle.view_drawing.specs.Passes.{part_seen, IsPlain};
ghost use Rattle.render_core.specs.Lists.{AreListed, IsPart};
ghost use Rattle.render_core.specs.Runs.{RunsFrom};
ghost use Rattle.render_core.specs.Seen.{frame_seen};
ghost use Rattle.render_core.specs.ViewParts.{part_of, parts_in};

use crate::lists::Lists;
use frame_record::{Frame, OrderedItem, PlacedBlit, end_of_blits, end_of_run};
use std::alloc::{AllocError, Global};
use view_drawing::ViewPart;

/// Puts a view with its blits and items behind the others, where it has an item.
fn put_where<'a>(
    parts: &mut Vec<ViewPart<'a>>,
    frame: &'a Frame,
    view: u16,
    is_entered: bool,
    blits: &'a [PlacedBlit],
    items: &'a [OrderedItem],
) -> Result<(), AllocError>
    requires there { view < view_count frame.now.views }
    requires part { IsPart frame.now view is_entered blits.now items.now }
    ensures parts { let f = frame_seen frame.now in
        OnOk result (map part_seen parts.new.items ≡ map part_seen parts.old.items ++ map (part_of f) (filter (λ v. list_any (is_of_view v) f.items) (view ∷ []))) }
    ensures plain { OnOk result (AllByRecursion IsPlain (map part_seen parts.old.items) → AllByRecursion IsPlain (map part_seen parts.new.items)) }
    ensures deeds { let f = frame_seen frame.now in
        OnOk result (deeds_of_parts (map part_seen parts.new.items) ≡ deeds_of_parts (map part_seen parts.old.items) ++ flat_map (deeds_in_view f.views f.items f.ordered) (filter (λ v. list_any (is_of_view v) f.items) (view ∷ []))) }
{
    match frame.views.get(view) {
        Some(settings) => {
            if is_entered {
                parts.push(ViewPart {
                    view: settings,
                    frame,
                    blits,
                    items,
                })?;
            }
            Ok(())
        }
        None => Ok(()),
    }
}

/// A view's part of a frame's lists, and where the next view's part begins.
#[derive(Clone, Copy)]
struct Part<'a> {
    is_entered: bool,
    blits: &'a [PlacedBlit],
    items: &'a [OrderedItem],
    copied: usize,
    drawn: usize,
}

/// The part of the view at a position, which begins where the part before it ends.
fn next_part<'a>(
    frame: &Frame,
    lists: &'a Lists,
    view: u16,
    position: u16,
    drawn: usize,
    copied: usize,
) -> Part<'a>
    requires listed { AreListed frame.now lists.now }
    requires view { (view < view_count frame.now.views) × (position_of_view frame.now.views view ≡ position) }
    requires draws { RunsFrom position_of drawn position lists.now.ordered.items }
    requires blits { RunsFrom (λ p. p.position) copied position lists.now.blits.items }
    ensures part { IsPart frame.now view result.is_entered result.blits.now result.items.now }
    ensures draws { RunsFrom position_of result.drawn (position + 1) lists.now.ordered.items }
    ensures blits { RunsFrom (λ p. p.position) result.copied (position + 1) lists.now.blits.items }
{
    let drawn_end = end_of_run(&lists.ordered, drawn, position);
    let copied_end = end_of_blits(&lists.blits, copied, position);
    Part {
        is_entered: lists.entered[view as usize],
        blits: &lists.blits[copied..copied_end],
        items: &lists.ordered[drawn..drawn_end],
        copied: copied_end,
        drawn: drawn_end,
    }
}

/// The views that have an item, in the order of the views, with their parts of the frame's lists.
pub(crate) fn parts_of<'a>(
    alloc: Global,
    frame: &'a Frame,
    lists: &'a Lists,
) -> Result<Vec<ViewPart<'a>>, AllocError>
    requires { AreListed frame.now lists.now }
    ensures parts { IfOk result (λ parts. map part_seen parts.items ≡ parts_in (frame_seen frame.now)) }
    ensures plain { IfOk result (λ parts. AllByRecursion IsPlain (map part_seen parts.items)) }
    ensures deeds { IfOk result (λ parts. deeds_of_parts (map part_seen parts.items) ≡ deeds_in (frame_seen frame.now)) }
{
    frame.views.tell_facts();
    let mut parts = Vec::new(alloc);
    let mut drawn = 0;
    let mut copied = 0;
    for position in 0..frame.views.count() {
        let view = frame.views.view_at(position);
        let part = next_part(frame, lists, view, position, drawn, copied);
        put_where(
            &mut parts,
            frame,
            view,
            part.is_entered,
            part.blits,
            part.items,
        )?;
        drawn = part.drawn;
        copied = part.copied;
    }
    Ok(parts)
}
