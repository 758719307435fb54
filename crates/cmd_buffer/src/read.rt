// Reads rows of commands.
ghost use Rattle.std.specs.Prelude.{◌≡◌, [], ◌∷◌, MatchOption};
ghost use Rattle.gfx_model.specs.Commands.{buffer_bytes};
ghost use Rattle.cmd_buffer.specs.Bytes.{commands_in};
ghost use Rattle.cmd_buffer.specs.Rows.{AllFit, IsBuffer};
ghost use Rattle.cmd_buffer.specs.Seen.{command_seen};

use crate::command::Command;
use crate::decode::decode;
use std::marker::Model;

/// A finished row of commands.
#[derive(Drop)]
pub struct CmdBytes {
    bytes: Vec<u8>,
}

impl Model for CmdBytes {
    ghost use Rattle.std.specs.Prelude.{List};
    ghost use Rattle.gfx_model.specs.Commands.{Command};
    ghost use Rattle.cmd_buffer.specs.Bytes.{commands_in};
    ghost use Rattle.cmd_buffer.specs.Rows.{IsBuffer};

    ghost Value = { List Command };

    ghost view = { λ s. commands_in s.bytes.items };

    ghost invariant = { λ s. IsBuffer s.bytes.items };
}

impl CmdBytes {
    pub(crate) fn from_bytes(bytes: Vec<u8>) -> CmdBytes
        requires { IsBuffer bytes.items }
        ensures { result ≡ commands_in bytes.items }
    {
        CmdBytes { bytes }
    }

    /// What every finished row keeps: each field of its commands fits its bytes.
    pub fn tell_facts(&self)
        ensures { AllFit self.now }
    {
        let _ = &self.bytes;
    }

    /// The bytes: each command's number in one byte and its fields in order, and the end word 0.
    pub fn as_slice(&self) -> &[u8]
        ensures { result.now ≡ buffer_bytes self.now }
    {
        &self.bytes
    }
}

/// Reads a row of commands from its front; it is seen as the commands that are left.
#[derive(Drop)]
pub struct CmdReader<'a> {
    rest: &'a [u8],
}

impl<'a> Model for CmdReader<'a> {
    ghost use Rattle.std.specs.Prelude.{List};
    ghost use Rattle.gfx_model.specs.Commands.{Command};
    ghost use Rattle.cmd_buffer.specs.Bytes.{commands_in};

    ghost Value = { List Command };

    ghost view = { λ s. commands_in s.rest.now };
}

impl<'a> CmdReader<'a> {
    /// A reader at the first command.
    pub fn new(bytes: &'a CmdBytes) -> CmdReader<'a>
        ensures { result ≡ bytes.now }
    {
        CmdReader {
            rest: bytes.bytes.as_slice(),
        }
    }

    /// The next command. None exactly at the end word.
    pub fn next(&mut self) -> Option<Command>
        ensures { MatchOption result ((self.old ≡ []) × (self.new ≡ [])) (λ c. self.old ≡ command_seen c ∷ self.new) }
    {
        match decode(self.rest) {
            Some((command, rest)) => {
                self.rest = rest;
                Some(command)
            }
            None => None,
        }
    }
}
