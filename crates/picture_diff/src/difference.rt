// What is told of two pictures.

/// A pixel's column and row, counted from 0, from the upper left corner.
#[derive(Clone, Copy, Debug, PartialEq, Eq, Drop)]
pub struct Place {
    pub x: u32,
    pub y: u32,
}

/// Where the pixels are that differ: the first in reading order, and the least box that has all of them. Its sides are among its pixels.
#[derive(Clone, Copy, Debug, PartialEq, Eq, Drop)]
pub struct Spread {
    pub first: Place,
    pub left: u32,
    pub top: u32,
    pub right: u32,
    pub bottom: u32,
}

/// How two pictures of the same sides differ.
#[derive(Clone, Copy, Debug, PartialEq, Eq, Drop)]
pub struct Difference {
    /// The pixels of each.
    pub pixels: u32,
    /// How many of them differ by more than is let pass in some channel.
    pub differ: u32,
    /// The greatest difference of a channel, 0 to 255, whether it is let pass or not.
    pub most: u8,
    /// Where the differing pixels are, if there are any.
    pub spread: Option<Spread>,
}
