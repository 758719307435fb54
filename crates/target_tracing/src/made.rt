// What is traced.
ghost use Rattle.std.specs.Prelude.{◌≡◌, ◌∷◌, ◌++◌, [], map, OnOk};
ghost use Rattle.pixel_ops.specs.Seen.{pixel_seen};
ghost use Rattle.pixel_strokes.specs.Seen.{stroke_seen};
ghost use Rattle.target_laws.specs.Targets as model;
ghost use Rattle.target_tracing.specs.Seen.{stroke_or, target_made_of, target_made_seen};

use pixel_ops::Pixel;
use pixel_strokes::Stroke;
use std::alloc::AllocError;
use trace_lines::Doer;

/// What changes a pixel of a frame buffer: a clear or a fragment of a view that draws on it, or another deed, which leaves a pixel there.
#[derive(Clone, Copy, Drop)]
pub enum TargetStroke {
    Own(Stroke),
    Left(Pixel),
}

/// A stroke, and the number of the deed that makes it, counted from 0.
#[derive(Clone, Copy, Drop)]
pub struct TargetMade {
    pub deed: u32,
    pub stroke: TargetStroke,
}

/// What a pixel of a frame buffer goes through in a frame: the pixel before the first deed, the strokes, and whose each deed is.
#[derive(Drop)]
pub struct TargetHistory {
    pub before: Pixel,
    pub made: Vec<TargetMade>,
    pub doers: Vec<Doer>,
}

/// Puts strokes of a deed of a view that draws on the frame buffer behind others.
pub(crate) fn push_own(
    made: &mut Vec<TargetMade>,
    deed: u32,
    strokes: &[Stroke],
) -> Result<(), AllocError>
    ensures { OnOk result (map target_made_seen made.new.items ≡ map target_made_seen made.old.items ++ map (target_made_of deed) (map model.own_stroke (map stroke_seen strokes.now))) }
{
    for stroke in strokes {
        made.push(TargetMade {
            deed,
            stroke: TargetStroke::Own(*stroke),
        })?;
    }
    Ok(())
}

/// Whether two depth words are the same, or both are not there.
fn is_same_word(one: Option<u32>, other: Option<u32>) -> bool
    ensures { result ≡ model.is_same_word one other }
{
    match (one, other) {
        (None, None) => true,
        (Some(a), Some(b)) => a == b,
        _ => false,
    }
}

/// Whether two pixels are the same.
fn is_same_pixel(one: &Pixel, other: &Pixel) -> bool
    ensures { result ≡ model.is_same_pixel (pixel_seen one.now) (pixel_seen other.now) }
{
    one.color == other.color && is_same_word(one.depth, other.depth)
}

/// Puts a stroke of a deed behind others: one of its own, or else the pixel that it leaves.
fn push_stroke(
    made: &mut Vec<TargetMade>,
    deed: u32,
    own: Option<Stroke>,
    left: &Pixel,
) -> Result<(), AllocError>
    ensures { OnOk result (map target_made_seen made.new.items ≡ map target_made_seen made.old.items ++ target_made_of deed (stroke_or own left.now) ∷ []) }
{
    let stroke = match own {
        Some(stroke) => TargetStroke::Own(stroke),
        None => TargetStroke::Left(*left),
    };
    made.push(TargetMade { deed, stroke })?;
    Ok(())
}

/// Puts the pixel that another deed leaves behind the strokes, where it changes it.
pub(crate) fn push_left(
    made: &mut Vec<TargetMade>,
    deed: u32,
    before: &Pixel,
    after: &Pixel,
) -> Result<(), AllocError>
    ensures { OnOk result (map target_made_seen made.new.items ≡ map target_made_seen made.old.items ++ map (target_made_of deed) (model.left_pixel (pixel_seen before.now) (pixel_seen after.now))) }
{
    if is_same_pixel(before, after) {
        return Ok(());
    }
    push_stroke(made, deed, None, after)
}
