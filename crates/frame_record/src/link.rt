// A place to which frames go, and from which they come back.
ghost use Rattle.std.specs.Prelude.{◌≡◌, ◌+◌, ◌<◌, [], ◌∷◌, ◌++◌, length, MatchOption};
ghost use Rattle.frame_record.specs.Links.{frames_of, out_of, CameBack};

use crate::frame::{Frame, RenderedFrame};

/// Where frames go, and come back from with the outcomes of their renders: in the order in which they were given, each once.
///
/// No call asks for leave to wait or to start threads: a link that waits or starts threads holds its runtime.
///
/// The frames that are out are those that were given and did not come back; there are at most as many as the latency.
pub trait FrameLink {
    ghost use Rattle.std.specs.Prelude.{ℕ, List};
    ghost use Rattle.frame_record.specs.declared.frame.Frame.{Frame};
    ghost use Rattle.frame_record.specs.declared.frame.RenderedFrame.{RenderedFrame};

    /// The frames that were given, in order.
    ghost given: { Self → List Frame };

    /// The frames that came back, in order.
    ghost back: { Self → List RenderedFrame };

    /// How many frames may be out at once. No call changes it.
    ghost latency: { Self → ℕ };

    /// What a link is told by: a link is closed with what it was made with.
    ghost Origin: { Type 0 };

    /// Where the link comes from. No call changes it.
    ghost origin: { Self → Origin };

    /// Hands a frame over, or renders it at once. Fewer frames than the latency are out.
    fn give(&mut self, frame: Frame)
        requires room { length (given self.old) < length (back self.old) + latency self.old }
        ensures given { given self.new ≡ given self.old ++ frame ∷ [] }
        ensures back { back self.new ≡ back self.old }
        ensures latency { latency self.new ≡ latency self.old }
        ensures origin { origin self.new ≡ origin self.old };

    /// Takes the oldest frame that is out back, where its render has ended; None changes nothing. A frame is out.
    fn try_take_back(&mut self) -> Option<RenderedFrame>
        requires { length (back self.old) < length (given self.old) }
        ensures given { given self.new ≡ given self.old }
        ensures back { MatchOption result
            (back self.new ≡ back self.old)
            (λ r. CameBack (given self.old) (back self.old) (back self.new) r) }
        ensures latency { latency self.new ≡ latency self.old }
        ensures origin { origin self.new ≡ origin self.old };

    /// Waits until the render of the oldest frame that is out has ended, and takes it back. A frame is out.
    fn take_back(&mut self) -> RenderedFrame
        requires { length (back self.old) < length (given self.old) }
        ensures given { given self.new ≡ given self.old }
        ensures back { CameBack (given self.old) (back self.old) (back self.new) result }
        ensures latency { latency self.new ≡ latency self.old }
        ensures origin { origin self.new ≡ origin self.old };
}
