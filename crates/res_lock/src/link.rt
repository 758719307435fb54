// A link that comes from where its naming says.
ghost use Rattle.std.specs.Prelude.{◌≡◌};

use frame_record::{Frame, FrameLink, RenderedFrame};
use std::marker::{Brand, Model, PhantomData};

/// Which link is meant, by where it comes from. Of what lies behind a lock its type alone is known; so the caller of the generic function
/// in which the link lives picks the meaning.
pub trait LinkNaming<L: FrameLink> {
    ghost use Rattle.std.specs.Prelude.{◌≡◌};

    /// This link is meant.
    ghost is_from: { L → Type 0 };

    /// It is known by its origin alone.
    ghost by_origin: { (a b : L) → L.origin a ≡ L.origin b → is_from a → is_from b };
}

impl<L: FrameLink> LinkNaming<L> for Brand {
    ghost is_from = { λ link. Unit {0} };

    ghost by_origin = { λ a b same is. is };
}

/// A link of the named origin. It is the link that it was made of, also behind a lock: no call changes where a link comes from. Contracts
/// see that link.
#[derive(Drop)]
pub struct NamedLink<L: FrameLink + Drop, N: LinkNaming<L>> {
    link: L,
    of: PhantomData<N>,
}

impl<L: FrameLink + Drop, N: LinkNaming<L>> Model for NamedLink<L, N> {
    ghost Value = { L };

    ghost view = { λ n. n.link };

    ghost invariant = { λ n. N.is_from n.link };
}

impl<L: FrameLink + Drop, N: LinkNaming<L>> NamedLink<L, N> {
    /// A link of the named origin.
    pub fn new(link: L) -> NamedLink<L, N>
        requires from { N.is_from link }
        ensures same { result ≡ link }
    {
        NamedLink {
            link,
            of: PhantomData,
        }
    }

    /// The link, which still comes from there.
    pub fn into_link(self) -> L
        ensures same { result ≡ self }
        ensures from { N.is_from result }
    {
        self.link
    }
}

impl<L: FrameLink + Drop, N: LinkNaming<L>> FrameLink for NamedLink<L, N> {
    ghost given = { λ n. L.given n };

    ghost back = { λ n. L.back n };

    ghost latency = { λ n. L.latency n };

    ghost Origin = { L.Origin };

    ghost origin = { λ n. L.origin n };

    fn give(&mut self, frame: Frame) {
        self.link.give(frame);
    }

    fn try_take_back(&mut self) -> Option<RenderedFrame> {
        self.link.try_take_back()
    }

    fn take_back(&mut self) -> RenderedFrame {
        self.link.take_back()
    }
}
