// The place words of things whose deaths are over.
ghost use Rattle.std.specs.Prelude.{◌≡◌, ◌<◌, ◌≤◌, ◌+◌, ℕ, Some, length, filter, if◌then◌else◌};
ghost use Rattle.std.specs.List.{AllByRecursion};
ghost use Rattle.gfx_model.specs.Words.{Kind, greatest, place_of_handle};
ghost use Rattle.gfx_model.specs.Resources.{is_at, is_kept_thing};
ghost use Rattle.schedule_model.specs.Machine.{free, place_at};
ghost use Rattle.hold_table.specs.Seats.{table_of, api_table, api_view};
ghost use Rattle.hold_table.specs.Views.{placed};
ghost use Rattle.resource_laws.specs.Lawful.{count_where};
ghost use Rattle.resource_book.specs.Seen.{row_seen, rows_seen};
ghost use Rattle.context_core.specs.Places.{place_of, IsPlaced, Stays};

use hold_table::{ApiSeat, HoldTable};
use resource_book::Row;

fn free_word(table: &HoldTable, api: &mut ApiSeat, row: &Row, latency: u8, frame: u32)
    requires table { api_table api.old ≡ table_of table.now }
    requires frame { frame ≡ (api_view api.old).frame }
    requires place { place_at (api_view api.old).places (place_of_handle row.now.handle) ≡ place_of (Some (row_seen row.now)) }
    ensures table { api_table api.new ≡ api_table api.old }
    ensures api { api_view api.new ≡ (if is_kept_thing latency frame (row_seen row.now) then api_view api.old else placed (place_of_handle row.now.handle) free (api_view api.old)) }
    ensures stays { (n : ℕ) → frame ≤ n + latency → Stays n (api_view api.old).places (api_view api.new).places }
{
    if !row.is_kept(latency, frame) {
        table.place_free(api, row.handle.place());
    }
}

/// Frees the place words of things whose deaths are over. What could be named in a frame that may be out can be named still.
pub(crate) fn free_words(
    table: &HoldTable,
    api: &mut ApiSeat,
    rows: &[Row],
    latency: u8,
    frame: u32,
)
    requires table { api_table api.old ≡ table_of table.now }
    requires frame { frame ≡ (api_view api.old).frame }
    requires placed { IsPlaced (api_view api.old).places (rows_seen rows.now) }
    requires many { length (api_view api.old).places ≡ 3776 }
    requires fits { AllByRecursion (λ t. t.handle.index < greatest t.handle.kind) (rows_seen rows.now) }
    requires alone { (k : Kind) (index : ℕ) → index < greatest k → count_where (is_at k index) (rows_seen rows.now) ≤ 1 }
    ensures table { api_table api.new ≡ api_table api.old }
    ensures placed { IsPlaced (api_view api.new).places (filter (is_kept_thing latency frame) (rows_seen rows.now)) }
    ensures many { length (api_view api.new).places ≡ 3776 }
    ensures stays { (n : ℕ) → frame ≤ n + latency → Stays n (api_view api.old).places (api_view api.new).places }
    ensures same { api_view api.new ≡ record (api_view api.old) { places = (api_view api.new).places } }
{
    for row in rows {
        free_word(table, api, row, latency, frame);
    }
}
