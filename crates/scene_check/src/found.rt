// Dropped lines that were found, and the numbers of the lines that are left.
ghost use Rattle.std.specs.Prelude.{◌≡◌, IfOk, []};
ghost use Rattle.scene_check.specs.Found.{noted};

use scene_lines::Reason;
use std::alloc::{AllocError, Global};
use std::marker::Model;

/// A line of a scene's text that is dropped.
#[derive(Clone, Copy, Drop, Debug)]
pub struct DroppedLine {
    /// Its number among the lines of the text, from 1.
    pub line: u32,
    /// The number of its frame, from 0.
    pub frame: u32,
    /// Its encoder; none for a line of the API thread.
    pub encoder: Option<u8>,
    /// Why it is dropped.
    pub reason: Reason,
}

/// The dropped lines so far, and the numbers of the lines that were not judged. Contracts see a `FoundView`.
#[derive(Drop)]
pub(crate) struct Found<'n> {
    left: &'n [u32],
    lines: Vec<DroppedLine>,
}

impl<'n> Model for Found<'n> {
    ghost use Rattle.scene_check.specs.Found.{FoundView};

    ghost Value = { FoundView };

    ghost view = { λ f. record { left = f.left.now; lines = f.lines.items } };
}

impl<'n> Found<'n> {
    /// No line was judged.
    pub(crate) fn new(alloc: Global, numbers: &'n [u32]) -> Found<'n>
        ensures { result ≡ record { left = numbers.now; lines = [] } }
    {
        Found {
            left: numbers,
            lines: Vec::new(alloc),
        }
    }

    /// Notes why the next line is dropped, or that it is accepted.
    pub(crate) fn note(
        &mut self,
        frame: u32,
        encoder: Option<u8>,
        reason: Option<Reason>,
    ) -> Result<(), AllocError>
        ensures { IfOk result (λ _. self.new ≡ noted frame encoder self.old reason) }
    {
        let Some((line, left)) = self.left.split_first() else {
            return Ok(());
        };
        if let Some(reason) = reason {
            self.lines.push(DroppedLine {
                line: *line,
                frame,
                encoder,
                reason,
            })?;
        }
        self.left = left;
        Ok(())
    }

    /// The numbers of the lines that were not judged.
    pub(crate) fn left(&self) -> &'n [u32]
        ensures { result.now ≡ self.now.left }
    {
        self.left
    }

    /// The dropped lines.
    pub(crate) fn into_lines(self) -> Vec<DroppedLine>
        ensures { result.items ≡ self.entry.lines }
    {
        self.lines
    }
}
