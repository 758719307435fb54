// What of an encoder decides which calls it refuses.
ghost use Rattle.std.specs.Prelude.{◌≡◌, ◌≤◌, ℕ, ℤ, [], ◌∷◌, List, None, Some, not, nat_le, nat_lt, length, ◌+◌, ◌<◌};
ghost use Rattle.gfx_model.specs.Words as words;
ghost use Rattle.gfx_model.specs.Raster.{Rect as ModelRect, Affine as ModelAffine};
ghost use Rattle.gfx_model.specs.World.{Blit};
ghost use Rattle.gfx_model.specs.Recorder as calls;
ghost use Rattle.gfx_words.specs.Seen.{room_seen, value_seen};
ghost use Rattle.scene_check.specs.Meters.{meter_of, judged, metered};

use gfx_words::{Handle, Kind, PlaceWord, Room, StateWord, StencilWord, UniformValue};
use handle_kinds::{
    differ_in_format, is_no_blit_destination, is_no_color_texture, is_no_uniform_for, is_not_of,
};
use scene_lines::Reason;
use std::marker::Model;

/// How much of its room an encoder has used. Contracts see a `MeterView`.
#[derive(Drop)]
pub struct Meter {
    frame: u32,
    views: u16,
    room: Room,
    items: u32,
    bytes: u32,
    uniforms: u32,
}

impl Model for Meter {
    ghost use Rattle.gfx_words.specs.Seen.{room_seen};
    ghost use Rattle.scene_check.specs.Meters.{MeterView};

    ghost Value = { MeterView };

    ghost view = { λ m. record { frame = m.frame; views = m.views; room = room_seen m.room; items = m.items; bytes = m.bytes; uniforms = m.uniforms } };
}

impl Meter {
    /// Of an encoder that just began.
    pub fn new(frame: u32, views: u16, room: Room) -> Meter
        ensures { result ≡ meter_of (calls.begun frame views (room_seen room)) }
    {
        Meter {
            frame,
            views,
            room,
            items: 0,
            bytes: 0,
            uniforms: 0,
        }
    }

    fn is_stale(&self, h: &Handle, word: u64) -> bool
        ensures { result ≡ not (words.is_usable_in self.now.frame word h.now.serial) }
    {
        !PlaceWord::is_usable_in(self.frame, word, h.serial())
    }

    fn lacks_view(&self, view: u16) -> bool
        ensures { result ≡ nat_le self.now.views view }
    {
        view >= self.views
    }

    pub(crate) fn set_state(&self, word: u64) -> Option<Reason>
        ensures { result ≡ judged self.now [] (calls.set_state word) }
    {
        match StateWord::read(word) {
            Ok(_) => None,
            Err(_) => Some(Reason::BadState),
        }
    }

    pub(crate) fn set_stencil(&self, front: u32, back: u32) -> Option<Reason>
        ensures { result ≡ judged self.now [] (calls.set_stencil front back) }
    {
        match (StencilWord::read(front), StencilWord::read(back)) {
            (Ok(_), Ok(_)) => None,
            _ => Some(Reason::BadState),
        }
    }

    pub(crate) fn set_vertices(&self, buffer: Handle, word: u64) -> Option<Reason>
        ensures { (first count : ℕ) → result ≡ judged self.now (word ∷ []) (calls.set_vertices buffer first count) }
    {
        if is_not_of(&buffer, Kind::VertexBuffer) {
            return Some(Reason::WrongKind);
        }
        if self.is_stale(&buffer, word) {
            return Some(Reason::Stale);
        }
        None
    }

    pub(crate) fn set_indices(&self, buffer: Handle, word: u64) -> Option<Reason>
        ensures { (first count : ℕ) → result ≡ judged self.now (word ∷ []) (calls.set_indices buffer first count) }
    {
        if is_not_of(&buffer, Kind::IndexBuffer) {
            return Some(Reason::WrongKind);
        }
        if self.is_stale(&buffer, word) {
            return Some(Reason::Stale);
        }
        None
    }

    pub(crate) fn set_transient_vertices(
        &mut self,
        layout: Handle,
        word: u64,
        bytes: &[u8],
    ) -> Option<Reason>
        ensures answer { result ≡ judged self.old (word ∷ []) (calls.set_transient_vertices layout bytes.now) }
        ensures after { self.new ≡ metered self.old (word ∷ []) (calls.set_transient_vertices layout bytes.now) }
    {
        if is_not_of(&layout, Kind::Layout) {
            return Some(Reason::WrongKind);
        }
        if self.is_stale(&layout, word) {
            return Some(Reason::Stale);
        }
        if self.bytes as u128 + bytes.len() as u128 > self.room.bytes as u128 {
            return Some(Reason::BytesFull);
        }
        self.bytes += bytes.len() as u32;
        None
    }

    pub(crate) fn set_transient_indices(&mut self, bytes: &[u8]) -> Option<Reason>
        ensures answer { result ≡ judged self.old [] (calls.set_transient_indices bytes.now) }
        ensures after { self.new ≡ metered self.old [] (calls.set_transient_indices bytes.now) }
    {
        if self.bytes as u128 + bytes.len() as u128 > self.room.bytes as u128 {
            return Some(Reason::BytesFull);
        }
        self.bytes += bytes.len() as u32;
        None
    }

    pub(crate) fn take_off(&self, stage: u8) -> Option<Reason>
        ensures { result ≡ judged self.now [] (calls.set_texture stage None) }
    {
        if stage > 1 {
            return Some(Reason::BadRange);
        }
        None
    }

    pub(crate) fn put_on(&self, stage: u8, texture: Handle, word: u64) -> Option<Reason>
        ensures { result ≡ judged self.now (word ∷ []) (calls.set_texture stage (Some texture)) }
    {
        if is_no_color_texture(&texture) {
            return Some(Reason::WrongKind);
        }
        if self.is_stale(&texture, word) {
            return Some(Reason::Stale);
        }
        if stage > 1 {
            return Some(Reason::BadRange);
        }
        None
    }

    pub(crate) fn set_uniform(
        &mut self,
        uniform: Handle,
        word: u64,
        value: &UniformValue,
    ) -> Option<Reason>
        ensures answer { result ≡ judged self.old (word ∷ []) (calls.set_uniform uniform (value_seen value.now)) }
        ensures after { self.new ≡ metered self.old (word ∷ []) (calls.set_uniform uniform (value_seen value.now)) }
    {
        if is_no_uniform_for(&uniform, value) {
            return Some(Reason::WrongKind);
        }
        if self.is_stale(&uniform, word) {
            return Some(Reason::Stale);
        }
        if self.uniforms >= self.room.uniforms {
            return Some(Reason::RoomFull);
        }
        self.uniforms += 1;
        None
    }

    pub(crate) fn submit(&mut self, view: u16, program: Handle, word: u64) -> Option<Reason>
        ensures answer { (depth flags : ℕ) → result ≡ judged self.old (word ∷ []) (calls.submit view program depth flags) }
        ensures after { (depth flags : ℕ) → self.new ≡ metered self.old (word ∷ []) (calls.submit view program depth flags) }
    {
        if self.lacks_view(view) {
            return Some(Reason::BadView);
        }
        if is_not_of(&program, Kind::Program) {
            return Some(Reason::WrongKind);
        }
        if self.is_stale(&program, word) {
            return Some(Reason::Stale);
        }
        if self.items >= self.room.items {
            return Some(Reason::RoomFull);
        }
        self.items += 1;
        None
    }

    pub(crate) fn touch(&mut self, view: u16) -> Option<Reason>
        ensures answer { result ≡ judged self.old [] (calls.touch view) }
        ensures after { self.new ≡ metered self.old [] (calls.touch view) }
    {
        if self.lacks_view(view) {
            return Some(Reason::BadView);
        }
        if self.items >= self.room.items {
            return Some(Reason::RoomFull);
        }
        self.items += 1;
        None
    }

    pub(crate) fn blit(
        &mut self,
        view: u16,
        destination: Handle,
        destination_word: u64,
        source: Handle,
        source_word: u64,
    ) -> Option<Reason>
        ensures answer { (dx dy sx sy w h : ℕ) → result ≡ judged self.old (destination_word ∷ source_word ∷ []) (calls.blit (record { view = view; destination = destination; dx = dx; dy = dy; source = source; sx = sx; sy = sy; w = w; h = h })) }
        ensures after { (dx dy sx sy w h : ℕ) → self.new ≡ metered self.old (destination_word ∷ source_word ∷ []) (calls.blit (record { view = view; destination = destination; dx = dx; dy = dy; source = source; sx = sx; sy = sy; w = w; h = h })) }
    {
        if self.lacks_view(view) {
            return Some(Reason::BadView);
        }
        if differ_in_format(&destination, &source) {
            return Some(Reason::WrongKind);
        }
        if self.is_stale(&destination, destination_word) {
            return Some(Reason::Stale);
        }
        if self.is_stale(&source, source_word) {
            return Some(Reason::Stale);
        }
        if is_no_blit_destination(&destination) {
            return Some(Reason::NotBlitDst);
        }
        if self.items >= self.room.items {
            return Some(Reason::RoomFull);
        }
        self.items += 1;
        None
    }
}
