// Frames that are kept come back, the oldest first.
ghost use Rattle.std.specs.Prelude.{◌≡◌, ◌+◌, [], IfOk, length};

use cmd_buffer::CmdBuffer;
use frame_keeping::KeepingLink;
use frame_record::{Frame, FrameLink, Outcome};
use std::alloc::{AllocError, Global};
use std::test::Fail;
use view_table::ViewTable;

// A frame of a number, with nothing to draw.
fn frame(alloc: Global, number: u32) -> Result<Frame, AllocError> {
    let views = ViewTable::new(alloc, 256)?;
    let pre = CmdBuffer::new(alloc).finish()?;
    let post = CmdBuffer::new(alloc).finish()?;
    Ok(Frame::new(
        number,
        views,
        pre,
        post,
        Vec::new(alloc),
        Vec::new(alloc),
        Vec::new(alloc),
    ))
}

#[test]
fn three_frames_two_out(rt: HostRuntime) -> Result<(), Fail> {
    let alloc = rt.alloc();
    let (first, second, third) = (frame(alloc, 4)?, frame(alloc, 5)?, frame(alloc, 6)?);
    let mut link = KeepingLink::new(alloc, 2)?;
    link.give(first);
    link.give(second);
    let back = link.take_back();
    assert_eq!(rt; (back.frame.number, back.outcome), (4, Outcome::Shown));
    link.give(third);
    let back = link.try_take_back().ok_or("none")?;
    assert_eq!(rt; (back.frame.number, back.outcome), (5, Outcome::Shown));
    let back = link.take_back();
    assert_eq!(rt; (back.frame.number, back.outcome), (6, Outcome::Shown));
    Ok(())
}
