// Looking for things.
ghost use Rattle.std.specs.Prelude.{◌≡◌, ◌<◌, ◌&&◌, option_map, map, filter, length, slice_index_or, Some, None, true, false, MatchResult};
ghost use Rattle.std.specs.List.{find};
ghost use Rattle.gfx_model.specs.Words.{frame_buffer_kind, is_live_in, greatest};
ghost use Rattle.gfx_model.specs.Resources.{Thing, is_at, is_live, holds_texture, word_of_thing, uniform_kind_in, byte_count, bytes_of_thing, least_index, can_attach, sides_in, texture_sides, same_sides};
ghost use Rattle.gfx_words.specs.Kinds.{kind_seen, info_seen, uniform_seen, format_seen};
ghost use Rattle.resource_book.specs.Seen.{fact_seen, row_seen, rows_seen};
ghost use Rattle.resource_book.specs.Finding.{held_by};
ghost use Rattle.resource_book.specs.Answered.{HasLiveThing};

use crate::rows::{Fact, Row};
use crate::table::ThingTable;
use gfx_words::{Format, Handle, Info, Kind, PlaceWord, Refusal, UniformKind};
use view_table::LiveTargets;

/// The kind of a uniform.
pub fn uniform_kind_of(fact: &Fact) -> UniformKind
    ensures { uniform_seen result ≡ uniform_kind_in (fact_seen fact.now) }
{
    match fact {
        Fact::Uniform { kind, name: _ } => *kind,
        _ => UniformKind::Int,
    }
}

fn word_of(row: &Row) -> u64
    ensures { result ≡ word_of_thing (Some (row_seen row.now)) }
{
    let serial = row.handle.serial();
    match row.death {
        None => PlaceWord::Live { serial }.word(),
        Some(death) => PlaceWord::Dying { serial, death }.word(),
    }
}

/// The word of the place of a kind's index.
pub fn word_at(table: &ThingTable, kind: Kind, index: u16) -> u64
    requires { index < greatest (kind_seen kind) }
    ensures { result ≡ word_of_thing (find (is_at (kind_seen kind) index) table.now.things) }
{
    match table.number_at(kind, index) {
        None => 0,
        Some(n) => word_of(table.row(n)),
    }
}

/// The handle of the thing at a kind's index.
pub fn handle_at(table: &ThingTable, kind: Kind, index: u16) -> Option<Handle>
    ensures { result ≡ option_map (λ t. t.handle) (find (is_at (kind_seen kind) index) table.now.things) }
{
    table.facts();
    if index >= kind.greatest() {
        return None;
    }
    match table.number_at(kind, index) {
        None => None,
        Some(n) => Some(table.row(n).handle),
    }
}

impl LiveTargets for ThingTable {
    ghost is_kept = { λ table h. is_live_in (word_of_thing (find (is_at h.kind h.index) table.things)) h.serial };

    fn keeps(&self, target: Handle) -> bool {
        PlaceWord::is_live_in(
            word_at(self, target.kind(), target.index()),
            target.serial(),
        )
    }
}

fn sides_in(format: Format, info: Info) -> Option<(u16, u16)>
    ensures { result ≡ sides_in (format_seen format) (info_seen info) }
{
    match info {
        Info::Texture {
            format: its,
            blit_dst: _,
            width,
            height,
        } => {
            if format.is(its) {
                Some((width, height))
            } else {
                None
            }
        }
        _ => None,
    }
}

fn sides_of(format: Format, h: Handle) -> Option<(u16, u16)>
    ensures { result ≡ texture_sides (format_seen format) h }
{
    if h.kind().is(Kind::Texture) {
        sides_in(format, h.info())
    } else {
        None
    }
}

fn same_sides(a: Option<(u16, u16)>, b: Option<(u16, u16)>) -> bool
    ensures { result ≡ same_sides a b }
{
    match (a, b) {
        (Some(a), Some(b)) => a.0 == b.0 && a.1 == b.1,
        _ => false,
    }
}

/// Whether textures can be a frame buffer's.
pub fn can_attach(color: Handle, depth: Option<Handle>) -> bool
    ensures { result ≡ can_attach color depth }
{
    match depth {
        None => sides_of(Format::Rgba8, color).is_some(),
        Some(depth) => same_sides(
            sides_of(Format::Rgba8, color),
            sides_of(Format::D24S8, depth),
        ),
    }
}

fn holds(row: &Row, serial: u32) -> bool
    ensures { result ≡ (is_live (row_seen row.now) && holds_texture serial (row_seen row.now).content) }
{
    match row.fact {
        Fact::FrameBuffer { color, depth } => row.death.is_none()
            && (color == serial || depth == Some(serial)),
        _ => false,
    }
}

// the handle of a frame buffer, where it lives and holds a texture
fn holder(row: &Row, serial: u32) -> Option<Handle>
    ensures { result ≡ held_by (λ t. is_live t && holds_texture serial t.content) (Some (row_seen row.now)) }
{
    if holds(row, serial) {
        Some(row.handle)
    } else {
        None
    }
}

// the same of the frame buffer of an index
fn holder_at(table: &ThingTable, index: u16, serial: u32) -> Option<Handle>
    requires { index < greatest frame_buffer_kind }
    ensures { result ≡ held_by (λ t. is_live t && holds_texture serial t.content) (find (is_at frame_buffer_kind index) table.now.things) }
{
    match table.number_at(Kind::FrameBuffer, index) {
        None => None,
        Some(n) => holder(table.row(n), serial),
    }
}

/// The live frame buffer of least index that holds a texture.
pub fn holder_of(table: &ThingTable, serial: u32) -> Option<Handle>
    ensures { result ≡ least_index (map (λ t. t.handle) (filter (λ t. is_live t && holds_texture serial t.content) table.now.things)) }
{
    table.facts();
    for index in 0..Kind::FrameBuffer.greatest() {
        let found = holder_at(table, index, serial);
        if found.is_some() {
            return found;
        }
    }
    None
}

fn has_serial(row: &Row, h: Handle) -> bool
    ensures same { result ≡ is_live_in (word_of_thing (Some (row_seen row.now))) h.serial }
    ensures serial { result ≡ true → row.now.handle.serial ≡ h.serial }
    ensures live { result ≡ true → row.now.death ≡ None }
{
    row.death.is_none() && row.handle.serial() == h.serial()
}

/// The number of the live thing of a handle.
pub fn live_at(table: &ThingTable, h: Handle) -> Result<usize, Refusal>
    ensures { MatchResult result
        (λ n. (n < length table.now.things) × ((d : Thing) → HasLiveThing h table.now.things (slice_index_or table.now.things n d))
        × (is_live_in (word_of_thing (find (is_at h.kind h.index) table.now.things)) h.serial ≡ true))
        (λ r. (is_live_in (word_of_thing (find (is_at h.kind h.index) table.now.things)) h.serial ≡ false) × (r ≡ Refusal.Stale (word_of_thing (find (is_at h.kind h.index) table.now.things)))) }
{
    match table.number_at(h.kind(), h.index()) {
        None => Err(Refusal::Stale { word: 0 }),
        Some(n) => {
            let row = table.row(n);
            if has_serial(row, h) {
                Ok(n)
            } else {
                Err(Refusal::Stale { word: word_of(row) })
            }
        }
    }
}

/// How many bytes a buffer has.
pub fn bytes_in(row: &Row) -> u32
    ensures { result ≡ byte_count (row_seen row.now).content }
{
    match row.fact {
        Fact::Vertices { bytes } => bytes,
        Fact::Indices { bytes } => bytes,
        _ => 0,
    }
}

/// How many bytes the buffer at a handle's place has.
pub fn bytes_at(table: &ThingTable, h: Handle) -> u32
    ensures { result ≡ bytes_of_thing (find (is_at h.kind h.index) table.now.things) }
{
    let kind = h.kind();
    let index = h.index();
    match table.number_at(kind, index) {
        None => 0,
        Some(n) => bytes_in(table.row(n)),
    }
}
