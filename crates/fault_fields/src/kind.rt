// What the fields of lines must be.

/// What a field must be.
#[derive(Clone, Copy, Drop)]
pub(crate) enum Kind {
    /// Whatever it is.
    Any,
    /// Bytes 32 to 126.
    Text,
    /// Not empty.
    Filled,
    /// A name that no line before makes.
    NewName,
    /// The same, but `uniform` lines may make it.
    NewUniform,
    /// A name that a line before makes.
    Name,
    /// The same, or `-`.
    NameOrNone,
    /// A number of this range.
    Number { low: u64, high: u64 },
    /// A number of 32 bits with a sign.
    Integer,
    /// A format of textures.
    Format,
    /// `dst` or `-`.
    Destination,
    /// A kind of programs.
    Program,
    /// A kind of uniforms.
    Uniform,
    /// What a `view` line sets.
    Setting,
    /// The order of a view.
    Mode,
    /// Pairs of digits of sixteen, or `-`.
    Hex,
    /// Eight digits of sixteen.
    Color,
    /// `fill:COLOR` or `hex:HEX`.
    Source,
    /// A part of a layout.
    Part,
}
