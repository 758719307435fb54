// The place words of things that are made and that die.
ghost use Rattle.std.specs.Prelude.{◌≡◌, ◌<◌, true, if◌then◌else◌};
ghost use Rattle.gfx_model.specs.Words.{place_of_handle};
ghost use Rattle.schedule_model.specs.Machine.{free, live, dying, place_at};
ghost use Rattle.hold_table.specs.Seats.{table_of, api_table, api_view};
ghost use Rattle.hold_table.specs.Views.{created, placed};

use gfx_words::Handle;
use hold_table::{ApiSeat, HoldTable};

/// Makes the handle's place live where the thing is new.
pub(crate) fn mark_live(table: &HoldTable, api: &mut ApiSeat, h: Handle, is_new: bool)
    requires table { api_table api.old ≡ table_of table.now }
    requires place { is_new ≡ true → place_at (api_view api.old).places (place_of_handle h) ≡ free }
    requires serial { is_new ≡ true → (api_view api.old).greatest < h.serial }
    ensures table { api_table api.new ≡ api_table api.old }
    ensures api { api_view api.new ≡ (if is_new then created (place_of_handle h) h.serial (api_view api.old) else api_view api.old) }
{
    if is_new {
        table.place_live(api, h);
    }
}

/// Makes the handle's live place dying where the thing died.
pub(crate) fn mark_dying(table: &HoldTable, api: &mut ApiSeat, h: Handle, died: bool)
    requires table { api_table api.old ≡ table_of table.now }
    requires place { place_at (api_view api.old).places (place_of_handle h) ≡ live h.serial }
    ensures table { api_table api.new ≡ api_table api.old }
    ensures api { api_view api.new ≡ (if died then placed (place_of_handle h) (dying h.serial (api_view api.old).frame) (api_view api.old) else api_view api.old) }
{
    if died {
        table.place_dying(api, h);
    }
}
