// The differing pixels that were found so far.
ghost use Rattle.std.specs.Prelude.{◌≡◌, ◌<◌, ◌≤◌, ◌+◌, ◌++◌, ◌∷◌, [], List, length, Bool, cond};
ghost use Rattle.picture_diff.specs.Difference.{place_at};
ghost use Rattle.picture_diff.specs.Told.{found_of, widened};
ghost use Rattle.picture_diff.specs.declared.difference.Place.{Place};

use crate::difference::{Place, Spread};

/// How many pixels differ, and where they are.
#[derive(Clone, Copy, Drop)]
pub(crate) struct Found {
    pub(crate) differ: u32,
    pub(crate) spread: Option<Spread>,
}

impl Found {
    /// None so far.
    pub(crate) fn none() -> Found
        ensures { result ≡ found_of [] }
    {
        Found {
            differ: 0,
            spread: None,
        }
    }

    /// One pixel more.
    #[inline(always)]
    fn with(self, place: Place) -> Found
        requires few { self.differ < 4294967295 }
        ensures many { result.differ ≤ self.differ + 1 }
        ensures found { (ps : List Place) → self ≡ found_of ps → result ≡ found_of (ps ++ place ∷ []) }
    {
        Found {
            differ: self.differ + 1,
            spread: Some(widened(self.spread, place)),
        }
    }

    /// One pixel more, if it differs.
    #[inline(always)]
    pub(crate) fn with_if(self, differs: bool, place: Place) -> Found
        requires few { self.differ < 4294967295 }
        ensures many { result.differ ≤ self.differ + 1 }
        ensures found { (ps : List Place) → self ≡ found_of ps → result ≡ found_of (ps ++ cond differs (place ∷ []) []) }
    {
        if differs { self.with(place) } else { self }
    }
}

/// The spread with one place more.
#[inline(always)]
fn widened(spread: Option<Spread>, place: Place) -> Spread
    ensures { result ≡ widened spread place }
{
    match spread {
        Some(spread) => Spread {
            first: spread.first,
            left: spread.left.min(place.x),
            top: spread.top.min(place.y),
            right: spread.right.max(place.x),
            bottom: spread.bottom.max(place.y),
        },
        None => Spread {
            first: place,
            left: place.x,
            top: place.y,
            right: place.x,
            bottom: place.y,
        },
    }
}
