//! A link that renders nothing: it keeps each frame that is given until it is taken back, as shown.
#![tactic(auto)]

mod keeping;

pub use keeping::KeepingLink;
