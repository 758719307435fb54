// Bands behind handles.
ghost use Rattle.std.specs.Prelude.{◌≡◌, true, false, map, Some};
ghost use Rattle.c_calls.specs.Bands.{AreLent, AreNull, values_of, without_band};
ghost use Rattle.c_calls.specs.declared.objects.Object.TheVariants.{Rows};

use crate::objects::Object;
use crate::slot::{Slot, is_null, put, take};
use render_core::Band;
use std::alloc::Global;

// Puts a band into a handle that is null, unless memory is wanting: then the band is lost, and the handle is null.
fn hand_one(alloc: Global, slot: &mut Slot, band: Band) -> bool
    ensures done { result ≡ true → slot.new.value ≡ Some (Rows band) }
    ensures lost { result ≡ false → slot.new.value ≡ slot.old.value }
{
    match Box::new(alloc, Object::Rows(band)) {
        Ok(object) => {
            put(slot, object);
            true
        }
        Err(refused) => {
            drop(refused);
            false
        }
    }
}

/// Hands bands out to handles that are null, from the first on, and answers to how many. Bands for which memory or a handle is wanting are
/// lost.
pub(crate) fn hand_out(alloc: Global, rows: Vec<Band>, bands: &mut [Slot]) -> usize
    requires { AreNull (values_of bands.old) }
    ensures { AreLent result (values_of bands.new) }
{
    let mut rows = rows;
    for at in 0..bands.len() {
        let Some(band) = rows.pop() else {
            return at;
        };
        if !hand_one(alloc, &mut bands[at], band) {
            return at;
        }
    }
    bands.len()
}

// Takes a band out of its handle, which is null then; another handle is as it was.
fn let_go(alloc: Global, slot: &mut Slot)
    ensures { slot.new.value ≡ without_band slot.old.value }
{
    let Some(object) = take(slot, alloc) else {
        return;
    };
    match &*object {
        Object::Rows(_) => {}
        _ => put(slot, object),
    }
}

/// Takes bands out of their handles, which are null then; another handle is as it was.
pub(crate) fn let_go_all(alloc: Global, bands: &mut [Slot])
    ensures { values_of bands.new ≡ map without_band (values_of bands.old) }
{
    for at in 0..bands.len() {
        let_go(alloc, &mut bands[at]);
    }
}

/// Whether handles are null.
pub(crate) fn are_null(alloc: Global, bands: &mut [Slot]) -> bool
    ensures same { values_of bands.new ≡ values_of bands.old }
    ensures yes { result ≡ true → AreNull (values_of bands.old) }
    ensures no { result ≡ false → AreNull (values_of bands.old) → ⊥ }
{
    for at in 0..bands.len() {
        if !is_null(&mut bands[at], alloc) {
            return false;
        }
    }
    true
}
