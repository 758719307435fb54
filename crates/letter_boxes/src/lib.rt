//! Letter boxes beside a hold table, one for each encoder of a frame: what an encoder ended with waits there until it is collected. No call
//! waits.
#![tactic(auto)]

mod boxes;
mod letter;
mod letter_rule;
mod posting;
mod shared;

pub use boxes::LetterBox;
pub use letter::Letter;
pub use letter_rule::{Claim, Enter, Find, Grab, Knows, Law, Rest};
pub use posting::{Posting, Unclaimed};
pub use shared::Shared;
