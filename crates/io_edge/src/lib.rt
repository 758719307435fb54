//! Where bytes come from and where they go, and gates at which a test may hold a thread.
//!
//! A `Source` and a `Sink` count their faults, and answer `Failed` only where that count rose. So a
//! caller that answers a fault can show whose fault it was.
#![tactic(auto)]

mod calls;
mod edge;
mod gate;
mod memory;
mod standard;
mod sums;
mod sure;

pub use edge::{Failed, Sink, Source};
pub use gate::{Gate, NoGate};
pub use memory::{MemSink, MemSource};
pub use standard::{StdSink, StdSource};
pub use sums::sum_of;
pub use sure::SureSink;
