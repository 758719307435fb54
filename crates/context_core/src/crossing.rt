// A core may go to another thread.
use crate::context::ContextCore;

fn sent<T: Send>(_value: &T) {}

// Has the check show it here: whoever lends a context to another thread, or puts one behind a lock, stands on it.
fn core_may_go(core: &ContextCore) {
    sent(core)
}
