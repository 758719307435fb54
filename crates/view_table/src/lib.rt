//! The views: their settings and their order.
#![tactic(auto)]

mod clears;
mod order;
mod table;
mod targets;
mod views;

pub use clears::Clear;
pub use table::ViewTable;
pub use targets::LiveTargets;
pub use views::View;
