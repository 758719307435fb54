// Frames, and how their renders went.
ghost use Rattle.std.specs.Prelude.{◌≡◌};
ghost use Rattle.frame_record.specs.Kept.{most_frame_items, IsKept};

use cmd_buffer::CmdBytes;
use draw_encoder::Recording;
use gfx_words::JournalEntry;
use view_table::ViewTable;

/// How many items a frame has at most: 8,191 of each of eight encoders.
pub const MOST_ITEMS: usize = 65_528;

/// What the renderer draws at one go: the commands before and after the drawing with their payloads, the views, what each encoder
/// recorded, and the journal, which is the order of all items by their numbers. It has at most `MOST_ITEMS` items, of different
/// numbers. Each recording is of an encoder of its own, its numbers ascend, and the journal is what `collect` makes of them.
#[derive(Drop)]
pub struct Frame {
    pub number: u32,
    pub views: ViewTable,
    pub pre: CmdBytes,
    pub post: CmdBytes,
    pub payloads: Vec<Vec<u8>>,
    pub recordings: Vec<Recording>,
    pub journal: Vec<JournalEntry>,
    ghost kept: { ∥ IsKept recordings.items journal.items ∥₁ },
}

impl Frame {
    /// A frame of these parts.
    pub fn new(
        number: u32,
        views: ViewTable,
        pre: CmdBytes,
        post: CmdBytes,
        payloads: Vec<Vec<u8>>,
        recordings: Vec<Recording>,
        journal: Vec<JournalEntry>,
    ) -> Frame
        requires { IsKept recordings.items journal.items }
        ensures number { result.number ≡ number }
        ensures views { result.views ≡ views }
        ensures commands { (result.pre ≡ pre) × (result.post ≡ post) }
        ensures payloads { result.payloads ≡ payloads }
        ensures recordings { result.recordings ≡ recordings }
        ensures journal { result.journal ≡ journal }
    {
        Frame {
            number,
            views,
            pre,
            post,
            payloads,
            recordings,
            journal,
        }
    }

    /// What every frame keeps: at most `MOST_ITEMS` items, of different numbers, each recording of an encoder of its own with
    /// numbers that ascend, and the journal of all of them.
    pub fn tell_facts(&self)
        ensures kept { IsKept self.now.recordings.items self.now.journal.items }
        ensures most { MOST_ITEMS ≡ most_frame_items }
    {}
}

/// How the render of a frame went. A frame is skipped exactly where an earlier one of the same renderer was not shown.
#[derive(Clone, Copy, Drop, PartialEq, Eq, Debug)]
pub enum Outcome {
    Shown,
    PictureFault,
    OutOfMemory,
    Skipped,
}

/// A frame that came back, as it was given, and how its render went.
#[derive(Drop)]
pub struct RenderedFrame {
    pub frame: Frame,
    pub outcome: Outcome,
}
