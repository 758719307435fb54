//! The resource calls without threads: which are refused, what they make, and what they write for the renderer.
#![tactic(auto)]

mod book;
mod calls;
mod creates;
mod deaths;
mod find;
mod frames;
mod names;
mod opening;
mod orders;
mod rows;
mod settings;
mod shelf;
mod stacks;
mod table;
mod textures;
mod updates;

ghost use Rattle.resource_book.specs.Laws.{PlaceLaw, SameLaw, WrittenLaw};

pub use book::Book;
pub use calls::ResourceCalls;
pub use frames::Work;
pub use opening::Start;
pub use rows::{Fact, Row};

/// What the book knows after an accepted call is what the calls of the frame wrote, without contents.
pub fn written_law()
    ensures { WrittenLaw }
{}

/// What a call makes in a lawful state has a free place in the world that the state stands for.
pub fn place_law()
    ensures { PlaceLaw }
{}

/// No call changes how many views there are, how many frames may be out, or the number of the frame.
pub fn same_law()
    ensures { SameLaw }
{}
