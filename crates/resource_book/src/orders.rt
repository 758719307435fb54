// What the calls of a frame write for the renderer before its draws.
ghost use Rattle.gfx_model.specs.Commands.{command_bytes};
ghost use Rattle.cmd_buffer.specs.Seen.{command_seen};
ghost use Rattle.resource_book.specs.Orders.{HasRoom, orders_sent};
ghost use Rattle.std.specs.Prelude.{◌≡◌, ◌<◌, ◌≤◌, ◌++◌, ◌∷◌, [], length, vec_len, vec_capacity, IfOk, IfErr};

use cmd_buffer::{CmdBuffer, Command};
use gfx_words::Refusal;
use std::alloc::Global;

/// Commands, and the payloads that they name by their numbers.
#[derive(Drop)]
pub struct Orders {
    pub commands: CmdBuffer,
    pub payloads: Vec<Vec<u8>>,
}

impl Orders {
    /// Nothing is written.
    pub fn new(alloc: Global) -> Orders
        ensures commands { result.commands.commands ≡ [] }
        ensures payloads { orders_sent result ≡ [] }
    {
        Orders {
            commands: CmdBuffer::new(alloc),
            payloads: Vec::new(alloc),
        }
    }

    /// Makes room for one command of so many bytes and one payload.
    pub fn reserve(&mut self, bytes: u32) -> Result<(), Refusal>
        ensures commands { self.new.commands.commands ≡ self.old.commands.commands }
        ensures payloads { orders_sent self.new ≡ orders_sent self.old }
        ensures room { IfOk result (λ _. HasRoom bytes self.new) }
        ensures refused { IfErr result (λ r. r ≡ Refusal.OutOfMemory) }
    {
        if self.payloads.len() >= 4_294_967_295 {
            return Err(Refusal::OutOfMemory);
        }
        if self.commands.reserve(bytes).is_err() || self.payloads.try_reserve(1).is_err() {
            return Err(Refusal::OutOfMemory);
        }
        Ok(())
    }

    /// The number of the next payload.
    pub fn next_payload(&self) -> u32
        requires { vec_len self.now.payloads < 4294967295 }
        ensures { result ≡ length (orders_sent self.now) }
    {
        self.payloads.len() as u32
    }

    /// Writes a command; there is room.
    pub fn write(&mut self, command: Command)
        requires room { length (command_bytes (command_seen command)) ≤ self.old.commands.spare }
        ensures written { self.new.commands.commands ≡ self.old.commands.commands ++ command_seen command ∷ [] }
        ensures payloads { orders_sent self.new ≡ orders_sent self.old }
    {
        self.commands.write(command).unwrap();
    }

    /// Writes a command and the payload that it names; there is room.
    pub fn send(&mut self, command: Command, payload: Vec<u8>)
        requires room { length (command_bytes (command_seen command)) ≤ self.old.commands.spare }
        requires payload { vec_len self.old.payloads < vec_capacity self.old.payloads }
        ensures written { self.new.commands.commands ≡ self.old.commands.commands ++ command_seen command ∷ [] }
        ensures sent { orders_sent self.new ≡ orders_sent self.old ++ payload.items ∷ [] }
    {
        self.commands.write(command).unwrap();
        self.payloads.push_reserved(payload);
    }
}
