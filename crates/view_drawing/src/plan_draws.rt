// Makes draws ready for a plan.
ghost use Rattle.std.specs.Prelude.{◌≡◌, ◌≢◌, ℕ, List, Some, None, option_map, OnOk, OnErr};
ghost use Rattle.gfx_words.specs.Seen.{program_seen};
ghost use Rattle.store_model.specs.Slots.{at};
ghost use Rattle.store_model.specs.Textures.{Textures};
ghost use Rattle.store_laws.specs.ByIndex.{paint_at, sampled_at, sampled_by};
ghost use Rattle.store_laws.specs.Listed.{painted_in};
ghost use Rattle.view_table.specs.Seen.{view_seen};
ghost use Rattle.draw_encoder.specs.declared.items.UniformSet.{UniformSet};
ghost use Rattle.draw_encoder.specs.Seen.{draw_seen};
ghost use Rattle.pass_bands.specs.Named.{named_texels};
ghost use Rattle.pass_bands.specs.Planned.{planned_seen, plan_seen};
ghost use Rattle.view_drawing.specs.Prepared.{AddsTo};

use crate::paints::bound;
use crate::preparing::{Stage, prepare};
use crate::room::DrawingRoom;
use crate::uniforms::{sampled_stage, solid_color};
use buffer_store::BufferStore;
use draw_encoder::DrawItem;
use gfx_words::{Handle, ProgramKind};
use pass_bands::{Plan, PlannedPaint};
use std::alloc::AllocError;

/// The index of a bound texture, if one is bound.
fn index_of(bound: Option<Handle>) -> Option<u16>
    ensures { (t : Textures) → named_texels t result ≡ sampled_at t bound }
{
    match bound {
        Some(texture) => Some(texture.index()),
        None => None,
    }
}

/// The index of the texture that a textured draw samples, if one is bound to the stage.
fn sampled_index(buffers: &BufferStore, draw: &DrawItem) -> Option<u16>
    ensures { (t : Textures) (bytes : List ℕ) (sets : List UniformSet) → named_texels t result ≡ sampled_by buffers.now t (draw_seen bytes sets draw.now) }
{
    index_of(bound(&draw.textures, sampled_stage(buffers)))
}

/// What a draw with a program paints with, whichever textures there are.
fn program_plan(buffers: &BufferStore, draw: &DrawItem, program: ProgramKind) -> PlannedPaint
    ensures { (t : Textures) (bytes : List ℕ) (sets : List UniformSet) → Some (planned_seen t result) ≡ paint_at buffers.now t (draw_seen bytes sets draw.now) (Some (program_seen program)) }
{
    match program {
        ProgramKind::Solid => PlannedPaint::Solid(solid_color(buffers)),
        ProgramKind::Color => PlannedPaint::Vertex,
        ProgramKind::Texture => PlannedPaint::Texture(sampled_index(buffers, draw)),
        ProgramKind::TexColor => PlannedPaint::TexColor(sampled_index(buffers, draw)),
    }
}

/// What a draw paints with, if its program is there, whichever textures there are.
fn planned_paint(
    buffers: &BufferStore,
    draw: &DrawItem,
    program: Option<ProgramKind>,
) -> Option<PlannedPaint>
    ensures { (t : Textures) (bytes : List ℕ) (sets : List UniformSet) → option_map (planned_seen t) result ≡ paint_at buffers.now t (draw_seen bytes sets draw.now) (option_map program_seen program) }
{
    match program {
        Some(program) => Some(program_plan(buffers, draw, program)),
        None => None,
    }
}

/// Puts a draw with a paint into the plan.
fn plan_painted(
    stage: &Stage<'_>,
    buffers: &BufferStore,
    recorded: &[u8],
    draw: &DrawItem,
    paint: PlannedPaint,
    plan: &mut Plan,
    room: &mut DrawingRoom,
) -> Result<(), AllocError>
    ensures { OnOk result ((sets : List UniformSet) → AddsTo stage.now.width stage.now.height (painted_in (view_seen stage.now.view.now) (draw_seen recorded.now sets draw.now) buffers.now (Some (planned_seen stage.now.textures.now paint))) (plan_seen stage.now.textures.now plan.old) (plan_seen stage.now.textures.now plan.new)) }
{
    match prepare(
        stage,
        buffers,
        recorded,
        draw,
        paint.with(stage.textures),
        room,
    ) {
        Ok(prepared) => {
            plan.push(&prepared, paint, &room.triangles)?;
            Ok(())
        }
        Err(fault) => Err(fault),
    }
}

/// Puts a draw into the plan, where its program is there, which alone takes memory.
pub(crate) fn plan_draw(
    stage: &Stage<'_>,
    buffers: &BufferStore,
    recorded: &[u8],
    draw: &DrawItem,
    plan: &mut Plan,
    room: &mut DrawingRoom,
) -> Result<(), AllocError>
    ensures adds { OnOk result ((sets : List UniformSet) → AddsTo stage.now.width stage.now.height (painted_in (view_seen stage.now.view.now) (draw_seen recorded.now sets draw.now) buffers.now (paint_at buffers.now stage.now.textures.now (draw_seen recorded.now sets draw.now) (at stage.now.programs.now draw.now.program.index))) (plan_seen stage.now.textures.now plan.old) (plan_seen stage.now.textures.now plan.new)) }
    ensures needs { OnErr result (at stage.now.programs.now draw.now.program.index ≢ None) }
{
    let program = stage.programs.get(draw.program.index());
    match planned_paint(buffers, draw, program) {
        Some(paint) => {
            plan_painted(stage, buffers, recorded, draw, paint, plan, room)?;
            Ok(())
        }
        None => Ok(()),
    }
}
