// Runs of pixels of one colour.
ghost use Rattle.std.specs.Prelude.{◌≡◌, ◌++◌, OnOk, option_map};
ghost use Rattle.frame_capture.specs.Capture.{run_bytes, run_text};
ghost use Rattle.frame_capture.specs.Fault.{can_stand, repeats, same_color};
ghost use Rattle.frame_capture.specs.Spelling.{goes_on, pixel_at, run_with};

use std::alloc::AllocError;

/// The longest run.
const FULL: u8 = 255;

/// A pixel's colour.
#[derive(Clone, Copy, Debug, Drop)]
pub(crate) struct Color {
    pub(crate) red: u8,
    pub(crate) green: u8,
    pub(crate) blue: u8,
}

impl Color {
    pub(crate) fn is(&self, other: &Color) -> bool
        ensures { result ≡ same_color self.now other.now }
    {
        self.red == other.red && self.green == other.green && self.blue == other.blue
    }
}

/// Some pixels of one colour, one after the other.
#[derive(Clone, Copy, Debug, Drop)]
pub(crate) struct Run {
    pub(crate) count: u8,
    pub(crate) color: Color,
}

impl Run {
    /// A run of one pixel.
    pub(crate) fn first(color: Color) -> Run
        ensures { result ≡ run_with 1 color }
    {
        Run { count: 1, color }
    }

    /// Whether a pixel of this colour can be one more.
    pub(crate) fn goes_on(&self, color: &Color) -> bool
        ensures { result ≡ goes_on self.now color.now }
    {
        self.count < FULL && self.color.is(color)
    }

    /// Whether the run could have been part of the one before it.
    fn repeats(&self, before: &Option<Run>) -> bool
        ensures { result ≡ repeats before.now self.now }
    {
        match before {
            None => false,
            Some(before) => before.count < FULL && before.color.is(&self.color),
        }
    }

    /// Whether the run can stand behind this one, where so many pixels are wanted.
    pub(crate) fn can_stand(&self, before: &Option<Run>, wanted: u32) -> bool
        ensures { result ≡ can_stand before.now wanted self.now }
    {
        self.count > 0 && u32::from(self.count) <= wanted && !self.repeats(before)
    }

    /// Puts the run's bytes.
    pub(crate) fn put(&self, capture: &mut Vec<u8>) -> Result<(), AllocError>
        ensures { OnOk result (capture.new.items ≡ capture.old.items ++ run_bytes self.now) }
    {
        let Color { red, green, blue } = self.color;
        capture.extend_from_slice(&[self.count, red, green, blue])
    }

    /// Puts the bytes of the run's pixels.
    pub(crate) fn put_pixels(&self, text: &mut Vec<u8>) -> Result<(), AllocError>
        ensures { OnOk result (text.new.items ≡ text.old.items ++ run_text self.now) }
    {
        let Color { red, green, blue } = self.color;
        let pixel = [red, green, blue];
        for _ in 0..self.count {
            text.extend_from_slice(&pixel)?;
        }
        Ok(())
    }
}

/// The first pixel, and the bytes behind it.
pub(crate) fn pixel_at(bytes: &[u8]) -> Option<(Color, &[u8])>
    ensures { option_map (λ x. (x.0, x.1.now)) result ≡ pixel_at bytes.now }
{
    let [red, green, blue, rest @ ..] = bytes else {
        return None;
    };
    let color = Color {
        red: *red,
        green: *green,
        blue: *blue,
    };
    Some((color, rest))
}
