//! Commands on things by index, written as bytes and read back.
#![tactic(auto)]

mod command;
mod decode;
mod read;
mod write;

pub use command::{Command, MOST_COMMAND_BYTES, few_bytes};
pub use read::{CmdBytes, CmdReader};
pub use write::CmdBuffer;
