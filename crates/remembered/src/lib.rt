//! A value that only clauses remember. It takes no memory.
#![tactic(auto)]

ghost use Rattle.std.specs.Prelude.{◌≡◌};
ghost use Rattle.std.specs.Borrow.{ftrue};

use std::marker::{Model, PhantomData};

/// A value as clauses saw it. It has no bytes and owns nothing, so it may go to another thread, whatever `T` is.
#[derive(Drop)]
pub struct Remembered<T> {
    marker: PhantomData<T>,
    pub ghost value: { T },
}

impl<T> Model for Remembered<T> {
    ghost also_owns = { λ _. ftrue };
}

unsafe impl<T> Send for Remembered<T> {}

impl<T> Remembered<T> {
    /// The value behind a reference, as it is now.
    pub fn of(value: &T) -> Remembered<T>
        ensures { result.value ≡ value.now }
    {
        let _ = value;
        Remembered {
            marker: PhantomData,
        }
    }
}
