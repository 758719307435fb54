// Passes.
ghost use Rattle.std.specs.Prelude.{◌≡◌, ◌≤◌, ◌<◌, All, length, option_map, IfErr, IfOk, IfSome};
ghost use Rattle.int_raster.specs.Seen.{surface_seen, sides_seen};
ghost use Rattle.pass_bands.specs.Drawn.{task_done};
ghost use Rattle.pass_bands.specs.Rowed.{AreIn};

use crate::bands::Band;
use crate::cutting::copy_piece;
use crate::ends::end_surface;
use crate::shared::Shared;
use crate::sharing::homes_of;
use crate::works::Task;
use int_raster::{Rows, Surface};
use std::alloc::Global;
use std::marker::Model;
use std::sync::Arc;

// More bands than this are not lent.
const MOST_BANDS: u32 = 64;

/// A pass whose bands are out. Contracts see its task.
#[derive(Drop)]
pub struct Pass {
    shared: Arc<Shared>,
    surface: Surface,
}

impl Model for Pass {
    ghost use Rattle.std.specs.Prelude.{◌≡◌, All};
    ghost use Rattle.pass_bands.specs.declared.works.Task.{Task};

    ghost Value = { Task };

    ghost view = { λ p. record { work = p.shared.value.work; surface = p.surface } };

    ghost invariant = { λ p. All (λ t. (t.work ≡ p.shared.value.work) × (t.surface ≡ p.surface)) p.shared.value.homes.items };
}

/// A band of rows of the surface. None where memory is wanting.
fn band_of(
    alloc: Global,
    shared: &Arc<Shared>,
    surface: &Surface,
    rows: Rows,
    home: usize,
) -> Option<Band>
    requires homes { All (λ t. t.surface ≡ surface.now) shared.now.value.homes.items }
    requires inside { home < length shared.now.value.homes.items }
    requires rows { AreIn rows surface.now }
{
    match copy_piece(alloc, surface, rows) {
        Ok(piece) => match Arc::try_clone(shared) {
            Ok(shared) => Some(Band {
                shared,
                home,
                piece: Some(piece),
            }),
            Err(_) => None,
        },
        Err(_) => None,
    }
}

/// A band for each home, from the last rows on; fewer where memory is wanting.
fn lend(alloc: Global, shared: &Arc<Shared>, surface: &Surface) -> Vec<Band>
    requires { All (λ t. t.surface ≡ surface.now) shared.now.value.homes.items }
{
    let mut bands = Vec::new(alloc);
    let mut rest = Rows::new(surface.color.width, 0, surface.color.height);
    let count = shared.homes.len();
    for lent in 0..count {
        let home = count - 1 - lent;
        let part = home as u32;
        let (above, rows) = rest.cut(part, part + 1);
        rest = above;
        let Some(band) = band_of(alloc, shared, surface, rows, home) else {
            break;
        };
        if bands.push(band).is_err() {
            break;
        }
    }
    bands
}

impl Pass {
    /// Begins a pass, and lends its bands: at most so many, at most 64, and at most one for each row; fewer where memory for them is
    /// wanting. Where memory for the pass itself is wanting, the task comes back.
    pub fn begin(alloc: Global, task: Task, bands: u32) -> Result<(Pass, Vec<Band>), Task>
        ensures begun { IfOk result (λ p. p.0 ≡ task) }
        ensures back { IfErr result (λ t. t ≡ task) }
    {
        let count = bands.min(MOST_BANDS).min(task.surface.color.height as u32);
        let Ok(homes) = homes_of(alloc, count as usize, &task) else {
            return Err(task);
        };
        let Task { work, surface } = task;
        match Arc::new(alloc, Shared { work, homes }) {
            Ok(shared) => {
                let bands = lend(alloc, &shared, &surface);
                Ok((Pass { shared, surface }, bands))
            }
            Err(refused) => {
                let Shared { work, homes: _ } = refused.value;
                Err(Task { work, surface })
            }
        }
    }

    /// Takes the bands back and ends the pass: all draws are made on its surface. Rows that were not drawn are drawn now. Where a band of
    /// the pass is still out, the pass comes back as it was; the bands that were given are let go.
    pub fn end(self, bands: Vec<Band>) -> Result<Task, Pass>
        ensures work { IfOk result (λ t. t.work ≡ self.work) }
        ensures drawn { IfOk result (λ t. surface_seen t.surface ≡ task_done self) }
        ensures color { IfOk result (λ t. sides_seen t.surface.color ≡ sides_seen self.surface.color) }
        ensures depth { IfOk result (λ t. option_map sides_seen t.surface.depth ≡ option_map sides_seen self.surface.depth) }
        ensures out { IfErr result (λ p. p ≡ self) }
    {
        drop(bands);
        let Pass { shared, surface } = self;
        let mut surface = surface;
        match Arc::try_unwrap(shared) {
            Ok(shared) => {
                let Shared { work, homes } = shared;
                end_surface(&work, homes, &mut surface);
                Ok(Task { work, surface })
            }
            Err(shared) => Err(Pass { shared, surface }),
        }
    }
}

impl Task {
    /// Makes all draws on the surface by the thread that calls.
    pub fn draw(self, alloc: Global) -> Task
        ensures work { result.work ≡ self.work }
        ensures drawn { surface_seen result.surface ≡ task_done self }
        ensures color { sides_seen result.surface.color ≡ sides_seen self.surface.color }
        ensures depth { option_map sides_seen result.surface.depth ≡ option_map sides_seen self.surface.depth }
    {
        let Task { work, surface } = self;
        let mut surface = surface;
        end_surface(&work, Vec::new(alloc), &mut surface);
        Task { work, surface }
    }
}
