// The table of the views.
ghost use Rattle.std.specs.Prelude.{◌≡◌, ◌<◌, ◌≤◌, IfOk, MatchOption, MatchResult, ◌&&◌, nat_le, map, replicate, slice_index};
ghost use Rattle.std.specs.List.{range_with_len};
ghost use Rattle.gfx_model.specs.Resources.{set_view_rect, set_view_scissor, set_view_clear, set_view_mode, set_view_transform, set_view_order, reset_view};
ghost use Rattle.gfx_model.specs.Views.{plain_view, new_views, IsViewCount, view_count, view_at, view_order, position_of_view, set_view};
ghost use Rattle.gfx_words.specs.Seen.{mode_seen};
ghost use Rattle.fix_math.specs.Seen.{rect_seen, affine_seen};
ghost use Rattle.view_table.specs.Seen.{view_seen};

use crate::order::{has_stranger, named_once, put_in_order};
use crate::targets::keep_targets;
use crate::{Clear, LiveTargets, View};
use bitflags::Flags;
use fix_math::{Affine, Rect};
use gfx_words::{ClearFlags, Handle, Refusal, ViewMode};
use std::alloc::{AllocError, Global};
use std::marker::Model;

const GREATEST_DEPTH: u32 = 16_777_215;

/// The settings of each view and the order of the views.
///
/// There are 256 or 512 views. Settings stay until they are changed. Only `new` and `copy` take memory.
#[derive(Drop)]
pub struct ViewTable {
    settings: Vec<View>,
    // the views in their order, the listed ones first
    sequence: Vec<u16>,
    // the position of each view in `sequence`
    positions: Vec<u16>,
    listed: usize,
}

impl Model for ViewTable {
    ghost use Rattle.std.specs.Prelude.{◌≡◌, ◌<◌, ◌^◌, map, take, length};
    ghost use Rattle.gfx_model.specs.Views.{Views, IsViewCount};
    ghost use Rattle.view_table.specs.Seen.{view_seen};
    ghost use Rattle.view_table.specs.Order.{IsOrder};

    ghost Value = { Views };

    ghost view = { λ t. record { settings = map view_seen t.settings.items; order = take t.listed t.sequence.items } };

    ghost invariant = { λ t. IsViewCount (length t.settings.items) × IsOrder (length t.settings.items) t.listed t.sequence.items t.positions.items };
}

fn plain_views(alloc: Global, count: u16) -> Result<Vec<View>, AllocError>
    ensures { IfOk result (λ v. map view_seen v.items ≡ replicate count plain_view) }
{
    let plain = View {
        target: None,
        ..View::plain()
    };
    vec![in alloc; plain; count as usize]
}

fn counting(alloc: Global, count: u16) -> Result<Vec<u16>, AllocError>
    ensures { IfOk result (λ v. v.items ≡ range_with_len 0 count) }
{
    (0..count).collect(alloc)
}

fn is_clear(flags: u8, depth: u32) -> bool
    ensures { result ≡ (nat_le flags 7 && nat_le depth 16777215) }
{
    ClearFlags::from_bits(flags).is_some() && depth <= GREATEST_DEPTH
}

impl ViewTable {
    ghost use Rattle.view_table.specs.Answered.{AnswersCall, AnswersTarget};
    ghost use Rattle.view_table.specs.Order.{IsViewTable};
    ghost use Rattle.view_table.specs.Targets.{with_targets_kept};

    /// A table of 256 or 512 views. Every view is as after a reset, and the ids are the order.
    pub fn new(alloc: Global, views: u16) -> Result<ViewTable, AllocError>
        requires { IsViewCount views }
        ensures { IfOk result (λ t. t ≡ new_views views) }
    {
        let settings = plain_views(alloc, views)?;
        let sequence = counting(alloc, views)?;
        let positions = counting(alloc, views)?;
        Ok(ViewTable {
            settings,
            sequence,
            positions,
            listed: 0,
        })
    }

    /// A table of the same settings and order.
    pub fn copy(&self) -> Result<ViewTable, AllocError>
        ensures { IfOk result (λ t. t ≡ self.now) }
    {
        let settings = self.settings.clone()?;
        let sequence = self.sequence.clone()?;
        let positions = self.positions.clone()?;
        Ok(ViewTable {
            settings,
            sequence,
            positions,
            listed: self.listed,
        })
    }

    /// How many views there are.
    pub fn count(&self) -> u16
        ensures same { result ≡ view_count self.now }
        ensures counted { IsViewCount (view_count self.now) }
    {
        self.settings.len() as u16
    }

    /// What every table keeps: its number of views, and an order in which each view stands once.
    pub fn tell_facts(&self)
        ensures { IsViewTable self.now }
    {
        let _ = &self.settings;
    }

    fn settings_of(&self, view: u16) -> Result<View, Refusal>
        ensures { MatchResult result
            (λ v. (view < view_count self.now) × (view_seen v ≡ view_at self.now view))
            (λ r. (view_count self.now ≤ view) × (r ≡ Refusal.BadView)) }
    {
        match self.settings.get(view as usize) {
            Some(settings) => Ok(*settings),
            None => Err(Refusal::BadView),
        }
    }

    fn put(&mut self, view: u16, settings: View)
        requires { view < view_count self.old }
        ensures { self.new ≡ set_view self.old view (λ _. view_seen settings) }
    {
        self.settings[view as usize] = settings;
    }

    /// Sets the view's part of its target. `BadView` exactly where there is no such view.
    pub fn set_rect(&mut self, view: u16, rect: Rect) -> Result<(), Refusal>
        ensures { AnswersCall result (set_view_rect view (rect_seen rect)) self.old self.new }
    {
        let old = self.settings_of(view)?;
        self.put(view, View { rect, ..old });
        Ok(())
    }

    /// Sets the view's scissor. `BadView` exactly where there is no such view.
    pub fn set_scissor(&mut self, view: u16, rect: Rect) -> Result<(), Refusal>
        ensures { AnswersCall result (set_view_scissor view (rect_seen rect)) self.old self.new }
    {
        let old = self.settings_of(view)?;
        self.put(
            view,
            View {
                scissor: rect,
                ..old
            },
        );
        Ok(())
    }

    /// Sets what entering the view clears. `BadView` exactly where there is no such view; then `BadState` exactly where `flags`
    /// is over 7 or `depth` over 16,777,215.
    pub fn set_clear(
        &mut self,
        view: u16,
        flags: u8,
        color: [u8; 4],
        depth: u32,
        stencil: u8,
    ) -> Result<(), Refusal>
        ensures { AnswersCall result
            (set_view_clear view (record { flags = flags; color = color; depth = depth; stencil = stencil }))
            self.old self.new }
    {
        let old = self.settings_of(view)?;
        if !is_clear(flags, depth) {
            return Err(Refusal::BadState);
        }
        self.put(
            view,
            View {
                clear: Clear {
                    flags,
                    color,
                    depth,
                    stencil,
                },
                ..old
            },
        );
        Ok(())
    }

    /// Sets how the view orders its draws and touches. `BadView` exactly where there is no such view.
    pub fn set_mode(&mut self, view: u16, mode: ViewMode) -> Result<(), Refusal>
        ensures { AnswersCall result (set_view_mode view (mode_seen mode)) self.old self.new }
    {
        let old = self.settings_of(view)?;
        self.put(view, View { mode, ..old });
        Ok(())
    }

    /// Sets the view's transform. `BadView` exactly where there is no such view.
    pub fn set_transform(&mut self, view: u16, t: Affine) -> Result<(), Refusal>
        ensures { AnswersCall result (set_view_transform view (affine_seen t)) self.old self.new }
    {
        let old = self.settings_of(view)?;
        self.put(
            view,
            View {
                transform: t,
                ..old
            },
        );
        Ok(())
    }

    /// Sets the view's target, a frame buffer or the back buffer. `BadView` exactly where there is no such view.
    pub fn set_target(&mut self, view: u16, target: Option<Handle>) -> Result<(), Refusal>
        ensures { AnswersTarget result view target self.old self.new }
    {
        let old = self.settings_of(view)?;
        self.put(view, View { target, ..old });
        Ok(())
    }

    /// Takes away each target that the test refuses: that view has the back buffer.
    pub fn keep_targets<T: LiveTargets>(&mut self, test: &T)
        ensures { self.new ≡ with_targets_kept (T.is_kept test.now) self.old }
    {
        keep_targets(&mut self.settings, test);
    }

    /// Sets the view as it is at first. `BadView` exactly where there is no such view.
    pub fn reset_view(&mut self, view: u16) -> Result<(), Refusal>
        ensures { AnswersCall result (reset_view view) self.old self.new }
    {
        self.settings_of(view)?;
        self.put(
            view,
            View {
                target: None,
                ..View::plain()
            },
        );
        Ok(())
    }

    /// Sets the views that come first; all others follow ascending. With an empty list the ids are the order.
    ///
    /// `BadView` exactly where an id is no view's; then `BadRange` exactly where the list is longer than the number of views or
    /// names a view twice.
    pub fn set_order(&mut self, ids: &[u16]) -> Result<(), Refusal>
        ensures { AnswersCall result (set_view_order ids.now) self.old self.new }
    {
        if has_stranger(ids, self.settings.len()) {
            return Err(Refusal::BadView);
        }
        match named_once(ids) {
            None => Err(Refusal::BadRange),
            Some(named) => {
                put_in_order(&mut self.sequence, &mut self.positions, ids, &named);
                self.listed = ids.len();
                Ok(())
            }
        }
    }

    /// The settings of a view; None exactly where there is no such view.
    pub fn get(&self, view: u16) -> Option<&View>
        ensures { MatchOption result
            (view_count self.now ≤ view)
            (λ v. (view < view_count self.now) × (view_seen v.now ≡ view_at self.now view)) }
    {
        self.settings.get(view as usize)
    }

    /// The position of a view in the order.
    pub fn position(&self, view: u16) -> u16
        requires { view < view_count self.now }
        ensures position { result ≡ position_of_view self.now view }
        ensures inverse { slice_index (view_order self.now) result ≡ view }
        ensures below { result < view_count self.now }
    {
        self.positions[view as usize]
    }

    /// The view at a position of the order.
    pub fn view_at(&self, position: u16) -> u16
        requires { position < view_count self.now }
        ensures view { result ≡ slice_index (view_order self.now) position }
        ensures inverse { position_of_view self.now result ≡ position }
        ensures below { result < view_count self.now }
    {
        self.sequence[position as usize]
    }
}
