//! A context behind a lock, with the history of its calls.
//!
//! Calls of several threads on one context are one legal history: each reply is the definition's at its point, the history has each
//! call once, and of each caller its calls in their order. The threads and the waiting stand in the callers.
#![tactic(auto)]

mod changes;
mod creates;
mod entry;
mod link;
mod lock;
mod log;
mod naming;
mod state;
mod table;
mod things;
mod view;

ghost use Rattle.res_lock.specs.Laws.{EndedLaw};

pub use entry::{Entry, LockRefusal, ResCall, ResReply};
pub use link::{LinkNaming, NamedLink};
pub use lock::ResLock;
pub use naming::HistoryNaming;
pub use table::{HistoryTable, ResPass};

/// A call is answered by the end of the context exactly where an earlier entry of the history tells that the frame of that number was
/// not given.
pub fn ended_law()
    ensures { EndedLaw }
{}
