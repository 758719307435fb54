//! Sort keys: numbers that order the draws and touches of a frame.
#![tactic(auto)]

ghost use Rattle.std.specs.Prelude.{◌≡◌, ◌<◌, ◌≤◌, ◌-◌, ◌/◌, ◌^◌, if◌then◌else◌};
ghost use Rattle.gfx_model.specs.Views.{position_bits, key_fields, key_bits, low_bits};
ghost use Rattle.gfx_words.specs.Seen.{mode_seen};
ghost use Rattle.sort_key.specs.Fields.{IsKeyFields, number_bits};
ghost use Rattle.sort_key.specs.Order.{OrderOfKeys, OneKeyOneFields};
ghost use Rattle.sort_key.specs.Seen.{fields_seen};

use gfx_words::ViewMode;
use std::marker::Model;

// how many bits each field of a key has
const POSITION_BITS: u32 = 9;

const TYPE_BITS: u32 = 2;

const BLEND_BITS: u32 = 2;

const PROGRAM_BITS: u32 = 9;

const DEPTH_BITS: u32 = 32;

const NUMBER_BITS: u32 = 19;

// the program's number of a touch
const NO_PROGRAM: u16 = 511;

// the lowest bits of the position, of the 1 of draws and touches, and of the type
const POSITION: u32 = 64 - POSITION_BITS;

const DRAW: u32 = POSITION - 1;

const TYPE: u32 = DRAW - TYPE_BITS;

// the lowest bits of the fields of a type, one below the other
const BLEND_BY_PROGRAM: u32 = TYPE - BLEND_BITS;

const PROGRAM_BY_PROGRAM: u32 = BLEND_BY_PROGRAM - PROGRAM_BITS;

const DEPTH_BY_PROGRAM: u32 = PROGRAM_BY_PROGRAM - DEPTH_BITS;

const DEPTH_BY_DEPTH: u32 = TYPE - DEPTH_BITS;

const BLEND_BY_DEPTH: u32 = DEPTH_BY_DEPTH - BLEND_BITS;

const PROGRAM_BY_DEPTH: u32 = BLEND_BY_DEPTH - PROGRAM_BITS;

const NUMBER_BY_NUMBER: u32 = TYPE - NUMBER_BITS;

const BLEND_BY_NUMBER: u32 = NUMBER_BY_NUMBER - BLEND_BITS;

const PROGRAM_BY_NUMBER: u32 = BLEND_BY_NUMBER - PROGRAM_BITS;

/// The fields of a key; one that the mode's key does not hold is 0.
#[derive(Clone, Copy, Drop, PartialEq, Eq, Debug)]
pub struct KeyFields {
    /// The view's position in the order of the views.
    pub position: u16,
    /// 0 by program, 1 by depth, 2 by number.
    pub mode_type: u8,
    pub blended: bool,
    /// The program's index, and 511 for a touch.
    pub program: u16,
    /// The depth, or 4,294,967,295 less the depth where the deepest come first.
    pub depth_field: u32,
    /// The number within the frame.
    pub number: u32,
}

/// The key of a draw or touch; keys compare as their numbers do.
#[derive(Clone, Copy, Drop, PartialEq, Eq, Debug)]
pub struct SortKey {
    bits: u64,
}

impl Model for SortKey {
    ghost use Rattle.gfx_model.specs.Views.{KeyFields, key_bits};
    ghost use Rattle.sort_key.specs.Fields.{fields_of, IsKey};

    ghost Value = { KeyFields };

    ghost view = { λ s. fields_of s.bits };

    ghost invariant = { λ s. IsKey s.bits };

    ghost inverse = { λ k. record { bits = key_bits k } };
}

fn fields(
    mode: ViewMode,
    position: u16,
    blended: bool,
    program: u16,
    depth: u32,
    number: u32,
) -> KeyFields
    ensures { fields_seen result ≡ key_fields (mode_seen mode) position (if blended then 1 else 0) program depth number }
{
    let plain = KeyFields {
        position,
        mode_type: 0,
        blended,
        program,
        depth_field: 0,
        number: 0,
    };
    match mode {
        ViewMode::Default => KeyFields {
            depth_field: depth,
            ..plain
        },
        ViewMode::Sequential => KeyFields {
            mode_type: 2,
            number,
            ..plain
        },
        ViewMode::DepthAscending => KeyFields {
            mode_type: 1,
            depth_field: depth,
            ..plain
        },
        ViewMode::DepthDescending => KeyFields {
            mode_type: 1,
            depth_field: u32::MAX - depth,
            ..plain
        },
    }
}

// the bits below the type
fn low_bits(key: KeyFields) -> u64
    requires { IsKeyFields (fields_seen key) }
    ensures { result ≡ low_bits (fields_seen key) }
{
    let blend = key.blended as u64;
    let program = key.program as u64;
    let depth = key.depth_field as u64;
    match key.mode_type {
        0 => (blend << BLEND_BY_PROGRAM)
            + (program << PROGRAM_BY_PROGRAM)
            + (depth << DEPTH_BY_PROGRAM),
        1 => (depth << DEPTH_BY_DEPTH) + (blend << BLEND_BY_DEPTH) + (program << PROGRAM_BY_DEPTH),
        _ => ((key.number as u64) << NUMBER_BY_NUMBER)
            + (blend << BLEND_BY_NUMBER)
            + (program << PROGRAM_BY_NUMBER),
    }
}

impl SortKey {
    /// The key of a draw, or of a touch with program 511, no blending and depth 0.
    ///
    /// The position is that of the view in the order, below 512; the number is that within the frame, below 524,288.
    pub fn draw(
        mode: ViewMode,
        position: u16,
        blended: bool,
        program: u16,
        depth: u32,
        number: u32,
    ) -> SortKey
        requires position { position < 2 ^ position_bits }
        requires program { program ≤ 511 }
        requires number { number < 2 ^ number_bits }
        ensures { result ≡ key_fields (mode_seen mode) position (if blended then 1 else 0) program depth number }
    {
        let key = fields(mode, position, blended, program, depth, number);
        let top = ((key.position as u64) << POSITION) + (1 << DRAW);
        SortKey {
            bits: top + ((key.mode_type as u64) << TYPE) + low_bits(key),
        }
    }

    /// The key of a touch: it has the program 511, no blending and depth 0.
    ///
    /// The position and the number are as those of a draw.
    pub fn touch(mode: ViewMode, position: u16, number: u32) -> SortKey
        requires position { position < 2 ^ position_bits }
        requires number { number < 2 ^ number_bits }
        ensures { result ≡ key_fields (mode_seen mode) position 0 511 0 number }
    {
        SortKey::draw(mode, position, false, NO_PROGRAM, 0, number)
    }

    /// The number of this key.
    pub fn bits(self) -> u64
        ensures { result ≡ key_bits self }
    {
        self.bits
    }

    /// What every key keeps: the highest bits of its number are the position.
    pub fn tell_facts(&self)
        ensures { key_bits self.now / 2 ^ (64 - position_bits) ≡ self.now.position }
    {
        let _ = &self.bits;
    }

    /// The position of the view in the order.
    pub fn view_position(self) -> u16
        ensures { result ≡ self.position }
    {
        (self.bits >> POSITION) as u16
    }

    /// The fields of this key.
    pub fn decode(self) -> KeyFields
        ensures { fields_seen result ≡ self }
    {
        let position = self.view_position();
        let at = |low: u32, count: u32| self.bits >> low & ((1 << count) - 1);
        match at(TYPE, TYPE_BITS) {
            0 => KeyFields {
                position,
                mode_type: 0,
                blended: at(BLEND_BY_PROGRAM, BLEND_BITS) == 1,
                program: at(PROGRAM_BY_PROGRAM, PROGRAM_BITS) as u16,
                depth_field: at(DEPTH_BY_PROGRAM, DEPTH_BITS) as u32,
                number: 0,
            },
            1 => KeyFields {
                position,
                mode_type: 1,
                blended: at(BLEND_BY_DEPTH, BLEND_BITS) == 1,
                program: at(PROGRAM_BY_DEPTH, PROGRAM_BITS) as u16,
                depth_field: at(DEPTH_BY_DEPTH, DEPTH_BITS) as u32,
                number: 0,
            },
            _ => KeyFields {
                position,
                mode_type: 2,
                blended: at(BLEND_BY_NUMBER, BLEND_BITS) == 1,
                program: at(PROGRAM_BY_NUMBER, PROGRAM_BITS) as u16,
                depth_field: 0,
                number: at(NUMBER_BY_NUMBER, NUMBER_BITS) as u32,
            },
        }
    }
}

/// Two keys compare as numbers just as their fields do from the highest down: the position, the type, and then the fields of
/// the type, as blend, program and depth; depth, blend and program; or number, blend and program. And keys that are equal have
/// equal fields.
pub fn order_of_keys()
    ensures order { OrderOfKeys }
    ensures one { OneKeyOneFields }
{}
