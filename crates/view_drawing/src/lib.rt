//! What entering a view does: its clear, its blits, and its draws and touches, each made on the stores of a renderer.
#![tactic(auto)]

mod apart;
mod begun;
mod blits;
mod clearing;
mod deeds;
mod drawing;
mod entering;
mod items;
mod lending;
mod lent_passes;
mod lent_targets;
mod lent_views;
mod paints;
mod passes;
mod plan_draws;
mod plan_items;
mod preparing;
mod ranges;
mod room;
mod shapes;
mod targets;
mod turns;
mod uniforms;
mod view_parts;

pub use begun::BegunPass;
pub use deeds::{clear_view, copy_blits, do_draws, prepare_item};
pub use entering::enter_view;
pub use lent_passes::LentPass;
pub use lent_views::begin_views;
pub use passes::enter_views;
pub use room::DrawingRoom;
pub use view_parts::ViewPart;
