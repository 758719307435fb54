// The least pair of items.
ghost use Rattle.std.specs.Prelude.{◌≡◌, length};
ghost use Rattle.shared_items.specs.Marked.{marks_clash, clash_at, partner_mark};
ghost use Rattle.shared_items.specs.Items.{least_items};

use shared_keys::Mark;

/// Whether two items share a key in a view, by their marks; an item without a mark shares with none.
fn clash(view: u16, left: &Option<Mark>, right: &Option<Mark>) -> bool
    ensures { result ≡ marks_clash view left.now right.now }
{
    let Some(left) = left else {
        return false;
    };
    let Some(right) = right else {
        return false;
    };
    left.view == view
        && left.encoder != right.encoder
        && left.view == right.view
        && left.is_blit == right.is_blit
        && left.key == right.key
}

/// The first of the second encoder's items with which an item shares.
fn partner(view: u16, left: &Option<Mark>, rights: &[Option<Mark>]) -> Option<usize>
    ensures { result ≡ partner_mark view left.now rights.now }
{
    for place in 0..rights.len() {
        if clash(view, left, &rights[place]) {
            return Some(place);
        }
    }
    None
}

/// The least pair of items of two encoders that share a key in a view: by the place of the first encoder's item among its items, and then by
/// that of the other's. The marks are those of all items of the two, in order; an item that clashes with nothing has none.
pub fn shared_items(
    view: u16,
    lefts: &[Option<Mark>],
    rights: &[Option<Mark>],
) -> Option<(usize, usize)>
    ensures { result ≡ least_items (clash_at view lefts.now rights.now) (length lefts.now) (length rights.now) }
{
    for place in 0..lefts.len() {
        if let Some(other) = partner(view, &lefts[place], rights) {
            return Some((place, other));
        }
    }
    None
}
