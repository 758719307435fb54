//! What frames are drawn from and on, and the commands of a frame executed on it.
#![tactic(auto)]

mod buffer_commands;
mod commands;
mod free;
mod payloads;
mod programs;
mod stores;
mod texture_commands;

pub use commands::execute_all;
pub use programs::ProgramRow;
pub use stores::RenderStores;
