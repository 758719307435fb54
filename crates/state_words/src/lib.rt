//! State words and stencil words of draws by names: what an engine writes in place of numbers such as 274,877,906,975.
#![tactic(auto)]

mod blends;
mod comparisons;
mod states;
mod stencils;

pub use blends::{Blend, BlendEquation, BlendFactor, BlendPart};
pub use comparisons::Comparison;
pub use states::{Channels, Primitive, RenderState, Winding};
pub use stencils::{StencilOperation, StencilState};
