// Lists of views without a repeat, and the order that one gives.
ghost use Rattle.std.specs.Prelude.{◌≡◌, ◌<◌, ◌≤◌, ◌+◌, ◌^◌, ℕ, nat_le, true, false, ◌++◌, length, take, slice_index, slice_index_or, MatchOption};
ghost use Rattle.std.specs.List.{list_any};
ghost use Rattle.gfx_model.specs.Number.{is_among, is_without_repeat, place_of};
ghost use Rattle.view_table.specs.Order.{AreBelow, in_order, unnamed};

use gfx_words::MOST_VIEWS;

const MOST: usize = MOST_VIEWS as usize;

/// Whether a list names a view that there is not, where there are `count` views.
pub fn has_stranger(ids: &[u16], count: usize) -> bool
    ensures { result ≡ list_any (λ v. nat_le count v) ids.now }
{
    ids.iter().any(|id| *id as usize >= count)
}

/// Which views a list names; None where it names one twice.
pub fn named_once(ids: &[u16]) -> Option<[bool; MOST]>
    requires { AreBelow MOST ids.now }
    ensures { MatchOption result
        (is_without_repeat ids.now ≡ false)
        (λ named. (is_without_repeat ids.now ≡ true) × ((v : ℕ) → v < MOST → slice_index_or named v false ≡ is_among v ids.now)) }
{
    let mut named = [false; MOST];
    for id in ids {
        if named[*id as usize] {
            return None;
        }
        named[*id as usize] = true;
    }
    Some(named)
}

// puts the views that are not named behind the listed ones
fn put_others(sequence: &mut [u16], listed: usize, named: &[bool])
    requires room { listed + length (unnamed named.now (length sequence.old)) ≡ length sequence.old }
    requires tests { length sequence.old ≤ length named.now }
    requires count { length sequence.old < 2 ^ 16 }
    ensures { sequence.new ≡ take listed sequence.old ++ unnamed named.now (length sequence.old) }
{
    let mut at = listed;
    for view in 0..sequence.len() {
        if !named[view] {
            sequence[at] = view as u16;
            at += 1;
        }
    }
}

// writes down the position of each view
fn put_positions(positions: &mut [u16], sequence: &[u16])
    requires lengths { length positions.old ≡ length sequence.now }
    requires count { length sequence.now < 2 ^ 16 }
    requires below { AreBelow (length sequence.now) sequence.now }
    requires distinct { is_without_repeat sequence.now ≡ true }
    ensures { (p : ℕ) → p < length sequence.now → slice_index positions.new (slice_index sequence.now p) ≡ p }
{
    for at in 0..sequence.len() {
        positions[sequence[at] as usize] = at as u16;
    }
}

// puts the listed views in front
fn put_listed(sequence: &mut [u16], ids: &[u16])
    requires { length ids.now ≤ length sequence.old }
    ensures { take (length ids.now) sequence.new ≡ ids.now }
{
    sequence[..ids.len()].copy_from_slice(ids);
}

/// Puts the listed views in front and the others behind them, and writes down the position of each.
pub fn put_in_order(sequence: &mut [u16], positions: &mut [u16], ids: &[u16], named: &[bool])
    requires positions { length positions.old ≡ length sequence.old }
    requires count { length sequence.old < 2 ^ 16 }
    requires below { AreBelow (length sequence.old) ids.now }
    requires once { is_without_repeat ids.now ≡ true }
    requires tests { length sequence.old ≤ length named.now }
    requires named { (v : ℕ) → v < length sequence.old → slice_index_or named.now v false ≡ is_among v ids.now }
    ensures sequence { sequence.new ≡ in_order (length sequence.old) ids.now }
    ensures positions { (v : ℕ) → v < length sequence.old → slice_index positions.new v ≡ place_of v sequence.new }
{
    put_listed(sequence, ids);
    put_others(sequence, ids.len(), named);
    put_positions(positions, sequence);
}
