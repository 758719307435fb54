//! What an engine calls to draw from code, and what it gets back: tables, contexts, encoders, things, links, renderers, frames. Every item
//! is one of a crate below, which has its documentation and its proof; an engine names this crate alone.
//!
//! A clause of an engine's own function cites the definitions by this crate's specs: `Rattle.gfx.specs.Calls`, `Definitions`, `Frames` and
//! `Pictures`.
#![tactic(auto)]

pub mod laws;

pub use draw_encoder::{Bundle, Encoder, Naming, Recording, Room, Shared};
pub use fix_math::{Affine, Rect};
pub use frame_record::{Frame, FrameLink, JournalEntry, Outcome, RenderedFrame};
pub use frame_swap::{ApiEnd, RenderEnd, WaitingEnd, swap_pair};
pub use gfx_context::{BackNote, Closed, Context, FrameReport, Start};
pub use gfx_words::{
    ClearFlags, DiscardFlags, FEWEST_VIEWS, Format, Handle, Kind, MOST_VIEWS, ProgramKind, Refusal,
    StateWord, StencilWord, TexSource, UniformKind, UniformValue, ViewMode,
};
pub use hold_table::{ApiSeat, HoldTable};
pub use render_core::{BandRasterizer, InPlaceLink, Rasterizer, Renderer, SerialRasterizer};
pub use resource_book::ResourceCalls;
pub use state_words::{
    Blend, BlendEquation, BlendFactor, BlendPart, Channels, Comparison, Primitive, RenderState,
    StencilOperation, StencilState, Winding,
};
pub use vertex_layout::{Attr, AttrType, LayoutBuilder, VertexLayout};
