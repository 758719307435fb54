//! What the state of the API thread's calls keeps, whatever calls are accepted and frames are started.
//!
//! The laws are functions without parameters: each has an empty body, and its contract is the law.
#![tactic(auto)]

ghost use Rattle.resource_laws.specs.Laws.{BareLaw, BareStartLaw, OpeningLaw, CallLaw, StartLaw, ReachedLaw, LiveLaw, FreeLaw, DestroyOrderLaw};

/// Contents are not read: with each thing's bytes, texels and value left out a call is refused for the same, and
/// else does the same but for contents. So a context needs no contents.
pub fn bare_law()
    ensures { BareLaw }
{}

/// The start of a frame does the same without contents.
pub fn bare_start_law()
    ensures { BareStartLaw }
{}

/// An opening state is lawful: at most one thing stands at a place, serials ascend, a free index has no thing, the
/// waiting indices are those of dead things, and the textures of a frame buffer are there as long as it is.
pub fn opening_law()
    ensures { OpeningLaw }
{}

/// An accepted call keeps the state lawful.
pub fn call_law()
    ensures { CallLaw }
{}

/// The start of a frame keeps the state lawful.
pub fn start_law()
    ensures { StartLaw }
{}

/// Every state that a run reaches is lawful, with its contents and without.
pub fn reached_law()
    ensures { ReachedLaw }
{}

/// Where a handle is accepted as live, the thing at its place has its serial and lives.
pub fn live_law()
    ensures { LiveLaw }
{}

/// A call gives a handle of a place where nothing stands; or, for a name that a live uniform has, that uniform's handle.
pub fn free_law()
    ensures { FreeLaw }
{}

/// Calls add to the waiting indices of a kind those of its things that died, in the order of the calls.
pub fn destroy_order_law()
    ensures { DestroyOrderLaw }
{}
