// Rooms of encoders.
ghost use Rattle.std.specs.Prelude.{◌≡◌};
ghost use Rattle.gfx_model.specs.FrameCalls.{most_items, most_bytes, most_uniforms};

/// The most items that an encoder has room for in a frame.
pub const MOST_ROOM_ITEMS: u32 = 8191;

/// The most transient bytes that an encoder has room for in a frame.
pub const MOST_ROOM_BYTES: u32 = 1_048_576;

/// The most uniform values that an encoder has room for in a frame.
pub const MOST_ROOM_UNIFORMS: u32 = 8191;

/// The three limits of rooms are those of the definitions.
pub fn room_limits()
    ensures items { MOST_ROOM_ITEMS ≡ most_items }
    ensures bytes { MOST_ROOM_BYTES ≡ most_bytes }
    ensures uniforms { MOST_ROOM_UNIFORMS ≡ most_uniforms }
{}

/// How much an encoder has room for in a frame: 1 to 8,191 items, 0 to 1,048,576 transient bytes, 0 to 8,191 uniform values.
#[derive(Clone, Copy, Drop, PartialEq, Eq, Debug)]
pub struct Room {
    pub items: u32,
    pub bytes: u32,
    pub uniforms: u32,
}

impl Room {
    ghost use Rattle.gfx_model.specs.FrameCalls.{is_room};
    ghost use Rattle.gfx_words.specs.Seen.{room_seen};

    /// Whether the room is within its limits.
    pub fn is_within_limits(&self) -> bool
        ensures { result ≡ is_room (room_seen self.now) }
    {
        1 <= self.items
            && self.items <= MOST_ROOM_ITEMS
            && self.bytes <= MOST_ROOM_BYTES
            && self.uniforms <= MOST_ROOM_UNIFORMS
    }
}
