// The handle that C holds.
ghost use Rattle.std.specs.Prelude.{◌≡◌, true, false, Option, Some, None, option_map};
ghost use Rattle.c_calls.specs.Kept.{kept};
ghost use Rattle.c_calls.specs.declared.objects.Object.{Object};

use crate::objects::Object;
use crate::parts::Parts;
use std::alloc::Global;
use std::marker::Model;
use std::mem;
use std::ptr::null_mut;

/// What C holds: a pointer to a boxed `Object`, or null. C declares it as `struct gfx { void *at; }`.
#[repr(C)]
pub struct Slot {
    at: *mut u8,
    alloc: Global,
    pub ghost value: { Option Object },
}

impl Model for Slot {
    ghost also_owns = { λ s. kept s.alloc s.at s.value };
}

impl Slot {
    /// A handle that is null.
    pub fn none(alloc: Global) -> Slot
        ensures { result.value ≡ None }
    {
        Slot {
            at: null_mut(),
            alloc,
        }
    }

    fn of_parts(parts: Parts<Object, Global>) -> Slot
        ensures { result.value ≡ Some parts.value }
    {
        let Parts { ptr, alloc } = parts;
        Slot {
            at: ptr as *mut u8,
            alloc,
        }
    }

    fn into_parts(self) -> Option<Parts<Object, Global>>
        ensures { option_map (λ p. p.value) result ≡ self.value }
    {
        let Slot { at, alloc } = self;
        if at.is_null() {
            None
        } else {
            Some(Parts {
                ptr: at as *mut Object,
                alloc,
            })
        }
    }
}

unsafe impl Send for Slot {}

impl Drop for Slot {
    fn drop(self) {
        if let Some(parts) = self.into_parts() {
            let _inner = parts.into_box();
        }
    }
}

/// Takes the box out, and leaves null.
pub(crate) fn take(slot: &mut Slot, alloc: Global) -> Option<Box<Object, Global>>
    ensures taken { option_map (λ b. b.value) result ≡ slot.old.value }
    ensures left { slot.new.value ≡ None }
{
    match mem::replace(slot, Slot::none(alloc)).into_parts() {
        Some(parts) => Some(parts.into_box()),
        None => None,
    }
}

/// Puts a box in.
pub(crate) fn put(slot: &mut Slot, inner: Box<Object, Global>)
    ensures { slot.new.value ≡ Some inner.value }
{
    *slot = Slot::of_parts(Parts::of(inner));
}

/// Whether a handle is null.
pub(crate) fn is_null(slot: &mut Slot, alloc: Global) -> bool
    ensures same { slot.new.value ≡ slot.old.value }
    ensures yes { result ≡ true → slot.old.value ≡ None }
    ensures no { result ≡ false → (o : Object) × (slot.old.value ≡ Some o) }
{
    match take(slot, alloc) {
        None => true,
        Some(object) => {
            put(slot, object);
            false
        }
    }
}

fn sent<T: Send>(_value: &T) {}

// Has the check show that an object may go to another thread, on which the proof for the handle stands.
fn object_may_go(object: &Object) {
    sent(object)
}
