// Recorder threads, which live as long as the scope that they are started in.
use crate::desk::Desk;
use draw_encoder::Naming;
use io_edge::Gate;
use std::alloc::Global;
use std::sync::{Arc, Wait};
use std::thread::{Scope, Threads};

/// What a recorder thread does: it records the jobs of the desk until the desk is stopped and none waits.
pub fn serve<C: Naming, R: Wait, G: Gate>(rt: &R, gate: &G, desk: &Desk<'_, C>) {
    for _ in rt.forever() {
        let Some(job) = desk.take(rt) else {
            return;
        };
        job.record(rt, gate);
    }
    unreachable!()
}

/// Records the jobs that wait, and returns when none does. So the thread that puts jobs on the desk does what no recorder took,
/// and all where no recorder could be started.
pub fn help<C: Naming, R: Wait, G: Gate>(rt: &R, gate: &G, desk: &Desk<'_, C>) {
    for _ in rt.forever() {
        let Some(job) = desk.try_take(rt) else {
            return;
        };
        job.record(rt, gate);
    }
    unreachable!()
}

/// Starts recorder threads, up to the first that can't be started. They end some time after the desk is stopped, and the scope
/// waits for them: whoever starts them stops the desk before the scope's end.
pub fn start_all<'s, 't: 's, E, C, R, G>(
    scope: &Scope<'s, E>,
    rt: &'s R,
    gate: &'s G,
    desk: &Arc<Desk<'t, C>, Global>,
    recorders: u8,
)
where
    C: Naming + Send + Sync + 's,
    R: Threads + Wait + Sync,
    G: Gate + Sync,
{
    for _ in 0..recorders {
        let Ok(theirs) = Arc::try_clone(desk) else {
            return;
        };
        if scope.spawn(move || serve(rt, gate, &theirs)).is_err() {
            return;
        }
    }
}
