// What the fields of a line must be, by its first field.
ghost use Rattle.std.specs.Prelude.{◌≡◌};
ghost use Rattle.fault_fields.specs.Forms.{order_kinds, create_kinds, resource_kinds, state_kinds, encoder_kinds, view_kinds, line_kinds};

use crate::kind::Kind;
use text_fields::is;

/// A line of the order of lines.
fn order_kinds(word: &[u8]) -> &'static [Kind]
    ensures { result.now ≡ order_kinds word.now }
{
    if is(b"scene", word) {
        return &[Kind::Any, Kind::Number { low: 1, high: 2 }];
    }
    if is(b"size", word) {
        return &[Kind::Any, Kind::Number { low: 1, high: 2048 }];
    }
    if is(b"encoders", word) {
        return &[Kind::Any, Kind::Number { low: 1, high: 8 }];
    }
    if is(b"room", word) {
        return &[
            Kind::Any,
            Kind::Number { low: 1, high: 8191 },
            Kind::Number {
                low: 0,
                high: 1_048_576,
            },
            Kind::Number { low: 0, high: 8191 },
        ];
    }
    if is(b"latency", word) {
        return &[Kind::Any, Kind::Number { low: 1, high: 3 }];
    }
    if is(b"encoder", word) {
        return &[Kind::Any, Kind::Number { low: 0, high: 255 }];
    }
    &[]
}

/// A line that makes a thing.
fn create_kinds(word: &[u8]) -> &'static [Kind]
    ensures { result.now ≡ create_kinds word.now }
{
    if is(b"layout", word) {
        return &[Kind::Any, Kind::NewName, Kind::Part];
    }
    if is(b"vb", word) {
        return &[Kind::Any, Kind::NewName, Kind::Name, Kind::Hex];
    }
    if is(b"ib", word) {
        return &[Kind::Any, Kind::NewName, Kind::Hex];
    }
    if is(b"texture", word) {
        return &[
            Kind::Any,
            Kind::NewName,
            Kind::Number {
                low: 0,
                high: 65_535,
            },
            Kind::Number {
                low: 0,
                high: 65_535,
            },
            Kind::Format,
            Kind::Destination,
            Kind::Source,
        ];
    }
    if is(b"fb", word) {
        return &[Kind::Any, Kind::NewName, Kind::Name, Kind::NameOrNone];
    }
    if is(b"program", word) {
        return &[Kind::Any, Kind::NewName, Kind::Program];
    }
    if is(b"uniform", word) {
        return &[Kind::Any, Kind::NewUniform, Kind::Uniform];
    }
    order_kinds(word)
}

/// Another line of the API thread, beside `view`.
fn resource_kinds(word: &[u8]) -> &'static [Kind]
    ensures { result.now ≡ resource_kinds word.now }
{
    if is(b"update", word) {
        return &[
            Kind::Any,
            Kind::Name,
            Kind::Number {
                low: 0,
                high: 4_294_967_295,
            },
            Kind::Hex,
        ];
    }
    if is(b"texupdate", word) {
        return &[
            Kind::Any,
            Kind::Name,
            Kind::Number {
                low: 0,
                high: 65_535,
            },
            Kind::Number {
                low: 0,
                high: 65_535,
            },
            Kind::Number {
                low: 0,
                high: 65_535,
            },
            Kind::Number {
                low: 0,
                high: 65_535,
            },
            Kind::Hex,
        ];
    }
    if is(b"destroy", word) {
        return &[Kind::Any, Kind::Name];
    }
    if is(b"order", word) {
        return &[
            Kind::Any,
            Kind::Number {
                low: 0,
                high: 65_535,
            },
        ];
    }
    create_kinds(word)
}

/// A line of an encoder that sets what follows.
fn state_kinds(word: &[u8]) -> &'static [Kind]
    ensures { result.now ≡ state_kinds word.now }
{
    if is(b"state", word) {
        return &[
            Kind::Any,
            Kind::Number {
                low: 0,
                high: 18_446_744_073_709_551_615,
            },
        ];
    }
    if is(b"stencil", word) {
        return &[
            Kind::Any,
            Kind::Number {
                low: 0,
                high: 4_294_967_295,
            },
        ];
    }
    if is(b"scissor", word) {
        return &[
            Kind::Any,
            Kind::Number {
                low: 0,
                high: 65_535,
            },
        ];
    }
    if is(b"transform", word) {
        return &[Kind::Any, Kind::Integer];
    }
    if is(b"vertices", word) {
        return &[
            Kind::Any,
            Kind::Name,
            Kind::Number {
                low: 0,
                high: 4_294_967_295,
            },
        ];
    }
    if is(b"indices", word) {
        return &[
            Kind::Any,
            Kind::Name,
            Kind::Number {
                low: 0,
                high: 4_294_967_295,
            },
        ];
    }
    resource_kinds(word)
}

/// Another line of an encoder.
fn encoder_kinds(word: &[u8]) -> &'static [Kind]
    ensures { result.now ≡ encoder_kinds word.now }
{
    if is(b"tvertices", word) {
        return &[Kind::Any, Kind::Name, Kind::Hex];
    }
    if is(b"tindices", word) {
        return &[Kind::Any, Kind::Hex];
    }
    if is(b"bind", word) {
        return &[
            Kind::Any,
            Kind::Number { low: 0, high: 255 },
            Kind::NameOrNone,
        ];
    }
    if is(b"set", word) {
        return &[Kind::Any, Kind::Name, Kind::Integer];
    }
    if is(b"submit", word) {
        return &[
            Kind::Any,
            Kind::Number {
                low: 0,
                high: 65_535,
            },
            Kind::Name,
            Kind::Number {
                low: 0,
                high: 4_294_967_295,
            },
            Kind::Number { low: 0, high: 255 },
        ];
    }
    if is(b"touch", word) {
        return &[
            Kind::Any,
            Kind::Number {
                low: 0,
                high: 65_535,
            },
        ];
    }
    if is(b"blit", word) {
        return &[
            Kind::Any,
            Kind::Number {
                low: 0,
                high: 65_535,
            },
            Kind::Name,
            Kind::Number {
                low: 0,
                high: 65_535,
            },
            Kind::Number {
                low: 0,
                high: 65_535,
            },
            Kind::Name,
            Kind::Number {
                low: 0,
                high: 65_535,
            },
        ];
    }
    state_kinds(word)
}

/// A `view` line, by the word of what it sets.
fn view_kinds(word: &[u8]) -> &'static [Kind]
    ensures { result.now ≡ view_kinds word.now }
{
    if is(b"clear", word) {
        return &[
            Kind::Any,
            Kind::Number {
                low: 0,
                high: 65_535,
            },
            Kind::Setting,
            Kind::Number { low: 0, high: 255 },
            Kind::Color,
            Kind::Number {
                low: 0,
                high: 16_777_215,
            },
            Kind::Number { low: 0, high: 255 },
        ];
    }
    if is(b"mode", word) {
        return &[
            Kind::Any,
            Kind::Number {
                low: 0,
                high: 65_535,
            },
            Kind::Setting,
            Kind::Mode,
        ];
    }
    if is(b"target", word) {
        return &[
            Kind::Any,
            Kind::Number {
                low: 0,
                high: 65_535,
            },
            Kind::Setting,
            Kind::NameOrNone,
        ];
    }
    if is(b"transform", word) {
        return &[
            Kind::Any,
            Kind::Number {
                low: 0,
                high: 65_535,
            },
            Kind::Setting,
            Kind::Integer,
        ];
    }
    &[
        Kind::Any,
        Kind::Number {
            low: 0,
            high: 65_535,
        },
        Kind::Setting,
        Kind::Number {
            low: 0,
            high: 65_535,
        },
    ]
}

/// A line by its first field, and a `view` line by its third as well.
pub(crate) fn line_kinds(first: &[u8], third: &[u8]) -> &'static [Kind]
    ensures { result.now ≡ line_kinds first.now third.now }
{
    if is(b"view", first) {
        return view_kinds(third);
    }
    encoder_kinds(first)
}
