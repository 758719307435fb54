// What no clause says at once: each kind of call by itself, with no queue and no link. Gathering is tried by the context above.
ghost use Rattle.std.specs.Prelude.{◌≡◌, ◌<◌, false, [], IfSome};
ghost use Rattle.hold_table.specs.Seats.{table_of};

use context_core::*;
use gfx_words::ProgramKind;
use hold_table::HoldTable;
use std::alloc::Global;

const START: Start = Start {
    frame: 7,
    serial: 1,
    views: 256,
    latency: 1,
};

const ROOM: Room = Room {
    items: 2,
    bytes: 0,
    uniforms: 0,
};

// A core of its own table in frame 7.
fn opened(alloc: Global) -> Option<(HoldTable, ContextCore)>
    ensures table { IfSome result (λ p. p.1.table ≡ table_of p.0) }
    ensures running { IfSome result (λ p. p.1.state.is_ended ≡ false) }
    ensures not_given { IfSome result (λ p. p.1.state.is_given ≡ false) }
    ensures out { IfSome result (λ p. p.1.state.out < p.1.state.book.resources.latency) }
    ensures none_out { IfSome result (λ p. p.1.state.out ≡ 0) }
{
    let Ok((table, seat)) = HoldTable::new(alloc, 7) else {
        return None;
    };
    let Ok(core) = ContextCore::new(alloc, seat, START) else {
        return None;
    };
    Some((table, core))
}

// A program is made and destroyed, an encoder is begun, and the end of the frame is not prepared while it is off: the program's index and its
// serial, whether it is so, how many encoders are begun, and how many off.
fn encoder_off(alloc: Global) -> Option<(u16, u32, bool, u32, u32)> {
    let (table, mut core) = opened(alloc)?;
    let Ok(program) = core.create_program(&table, ProgramKind::Solid) else {
        return None;
    };
    let Ok(_) = core.destroy(&table, program) else {
        return None;
    };
    let Ok(recorder) = core.begin(&table, ROOM) else {
        return None;
    };
    let is_off = match core.prepare() {
        Err(NotReady::EncodersOff) => true,
        _ => false,
    };
    drop(recorder);
    Some((
        program.index(),
        program.serial(),
        is_off,
        core.begun(),
        core.off(),
    ))
}

// A frame ends and comes back: its number and its recordings, whether it is given before and after the next one starts, how many
// frames are out before and behind it, and the next frame.
fn one_frame(alloc: Global) -> Option<(u32, usize, [bool; 2], u32, u32, u32)> {
    let (table, mut core) = opened(alloc)?;
    let Ok(prepared) = core.prepare() else {
        return None;
    };
    let frame = core.make(prepared, true).frame?;
    let is_given = core.is_given();
    core.start_next(&table);
    let given = [is_given, core.is_given()];
    let out = core.out();
    core.came_back(&frame);
    Some((
        frame.number,
        frame.recordings.len(),
        given,
        out,
        core.out(),
        core.frame_number(),
    ))
}

// A frame that is ended where the one before was not shown: whether there is a frame, and whether the core is ended.
fn not_shown(alloc: Global) -> Option<(bool, bool)> {
    let (table, mut core) = opened(alloc)?;
    let Ok(prepared) = core.prepare() else {
        return None;
    };
    let end = core.make(prepared, false);
    Some((end.frame.is_some(), core.is_ended()))
}

#[test]
fn a_frame_ends_with_no_encoder_off(rt: HostRuntime) {
    assert_eq!(rt; encoder_off(rt.alloc()), Some((0, 1, true, 1, 1)));
    assert_eq!(rt; one_frame(rt.alloc()), Some((7, 0, [true, false], 1, 0, 8)));
    assert_eq!(rt; not_shown(rt.alloc()), Some((false, true)));
}
