// The forms of view lines and of the order of views.
ghost use Rattle.std.specs.Prelude.{◌≤◌};
ghost use Rattle.view_table.specs.Seen.{clear_seen};
ghost use Rattle.scene_model.specs.Grammar.{clear_fields, setting_form, view_form, order_form};
ghost use Rattle.text_fields.specs.Fields.{texts};
ghost use Rattle.scene_text.specs.Gives.{Gives, MayGive};
ghost use Rattle.scene_text.specs.Seen.{resource_line_seen};
ghost use Rattle.scene_text.specs.SeenWords.{setting_seen};
ghost use Rattle.scene_model.specs.Grammar.{whole_language};

use crate::bytes::color_field;
use crate::fault::{Cause, LineFault};
use crate::fields::{are_filled, field, has_count, has_count_from, has_field};
use crate::lists::{rect, transform, views};
use crate::names::Names;
use crate::numbers::{number, u8_number, u16_number};
use crate::scene::ResLine;
use crate::words::{Setting, mode_word, setting_word};
use std::alloc::Global;
use view_table::Clear;

fn clear(fields: &[&[u8]]) -> Result<Clear, Cause>
    ensures { Gives clear_seen result (clear_fields (texts fields.now)) }
{
    let flags = u8_number(field(fields, 3))?;
    let color = color_field(field(fields, 4))?;
    let depth = number(field(fields, 5), 0, 16_777_215)?;
    let stencil = u8_number(field(fields, 6))?;
    Ok(Clear {
        flags,
        color,
        depth,
        stencil,
    })
}

fn view_setting(
    names: &Names,
    fields: &[&[u8]],
    view: u16,
    setting: Setting,
) -> Result<ResLine, Cause>
    ensures { Gives resource_line_seen result (setting_form names.now (texts fields.now) view (setting_seen setting)) }
{
    match setting {
        Setting::Rect => {
            has_count(fields, 7)?;
            let rect = rect(fields, 3)?;
            Ok(ResLine::ViewRect { view, rect })
        }
        Setting::Scissor => {
            has_count(fields, 7)?;
            let rect = rect(fields, 3)?;
            Ok(ResLine::ViewScissor { view, rect })
        }
        Setting::Clear => {
            has_count(fields, 7)?;
            let clear = clear(fields)?;
            Ok(ResLine::ViewClear { view, clear })
        }
        Setting::Mode => {
            has_count(fields, 4)?;
            let mode = mode_word(field(fields, 3))?;
            Ok(ResLine::ViewMode { view, mode })
        }
        Setting::Target => {
            has_count(fields, 4)?;
            let target = names.optional(field(fields, 3))?;
            Ok(ResLine::ViewTarget { view, target })
        }
        Setting::Transform => {
            has_count(fields, 15)?;
            let transform = transform(fields, 3)?;
            Ok(ResLine::ViewTransform { view, transform })
        }
        Setting::Reset => {
            has_count(fields, 3)?;
            Ok(ResLine::ViewReset { view })
        }
    }
}

/// `view V` and a setting; the setting's word is read before the fields are counted.
pub fn view(names: &Names, fields: &[&[u8]]) -> Result<ResLine, Cause>
    ensures { Gives (λ l. (resource_line_seen l, names.now)) result (view_form whole_language names.now (texts fields.now)) }
{
    has_field(fields, 1)?;
    let view = u16_number(field(fields, 1))?;
    has_field(fields, 2)?;
    let setting = setting_word(field(fields, 2))?;
    are_filled(fields)?;
    let line = view_setting(names, fields, view, setting)?;
    Ok(line)
}

/// `order V ..`, with at most as many numbers as there are views
pub fn order(
    alloc: Global,
    most: usize,
    names: &Names,
    fields: &[&[u8]],
) -> Result<ResLine, LineFault>
    requires { most ≤ 512 }
    ensures { MayGive (λ l. (resource_line_seen l, names.now)) result (order_form most names.now (texts fields.now)) }
{
    has_count_from(fields, 1, 1 + most)?;
    let views = views(alloc, fields, 1)?;
    Ok(ResLine::Order { views })
}
