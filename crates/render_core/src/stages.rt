// Where a frame stands that is begun.

/// How far a frame came, between two passes.
#[derive(Clone, Copy, Drop)]
pub(crate) enum Stage {
    /// An earlier frame was not shown; nothing is done.
    Skipped,
    /// Memory was wanting; nothing more is done.
    Stopped,
    /// The first commands are executed, and so many of the views that have an item are entered.
    Entered(usize),
}
