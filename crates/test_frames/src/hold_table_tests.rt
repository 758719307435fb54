// What no clause says: place words as numbers, the answers of names over two frames, and whole frames with threads. What dies in a later
// frame than the first has its word in `three_frames`.
ghost use Rattle.std.specs.Prelude.{◌≡◌, suc, ◌+◌, ◌<◌, ◌≤◌, [], length};
ghost use Rattle.schedule_model.specs.Held.{count_of};
ghost use Rattle.hold_table.specs.Seats.{table_of, api_table, enc_table, api_view, enc_view};

use gfx_words::{Handle, Info, Kind, Refusal};
use hold_table::*;
use std::alloc::{AllocError, Global};
use std::test::Fail;
use std::thread;
use std::thread::Threads;

type Answer = Result<(), Refusal>;

// What a thing answers whose place has the third serial.
fn third_serial(alloc: Global) -> Result<Answer, AllocError> {
    let (table, mut api) = HoldTable::new(alloc, 0)?;
    let third = Handle::of(Kind::Layout, 1, 3, Info::Plain);
    let other = Handle::of(Kind::Layout, 1, 4, Info::Plain);
    table.place_live(&mut api, third);
    let mut enc = table.split(&mut api, 7);
    let answer = table.name(&mut enc, other);
    table.join(&mut api, enc);
    table.close(api);
    Ok(answer)
}

// The answers come of a thing that is not there yet, created after the split, dying in the recorder's frame, and dead before the frame.
#[test]
fn words_of_places(rt: HostRuntime) -> Result<(), Fail> {
    let (table, mut api) = HoldTable::new(rt.alloc(), 0)?;
    let old = Handle::of(Kind::Layout, 0, 1, Info::Plain);
    let other = Handle::of(Kind::Layout, 0, 2, Info::Plain);
    let mut before = table.split(&mut api, 0);
    let free = table.name(&mut before, old);
    table.place_live(&mut api, old);
    let live = [table.name(&mut before, old), table.name(&mut before, other)];
    table.place_dying(&mut api, old);
    let dying = [table.name(&mut before, old), table.name(&mut before, other)];
    table.join(&mut api, before);
    table.advance(&mut api);
    let mut after = table.split(&mut api, 0);
    let dead = table.name(&mut after, old);
    table.join(&mut api, after);
    table.close(api);
    assert_eq!(rt; free, Err(Refusal::Stale { word: 0 }));
    assert_eq!(rt; live, [Ok(()), Err(Refusal::Stale { word: 5 })]);
    assert_eq!(rt; dying, [Ok(()), Err(Refusal::Stale { word: 6 })]);
    assert_eq!(rt; dead, Err(Refusal::Stale { word: 6 }));
    assert_eq!(rt; third_serial(rt.alloc())?, Err(Refusal::Stale { word: 13 }));
    Ok(())
}

// A recorder begins, and is joined before it did anything.
fn begin_and_join(table: &HoldTable, api: &mut ApiSeat, number: u8)
    requires table { api_table api.old ≡ table_of table.now }
    requires number { (number < 8) × (count_of number (api_view api.old).off ≡ 0) }
    requires room { length (api_view api.old).off + (api_view api.old).joined < 8 }
    ensures table { api_table api.new ≡ table_of table.now }
    ensures as_before { api_view api.new ≡ api_view api.old }
{
    let unused = table.split(api, number);
    table.join(api, unused);
}

#[test]
fn unused_seat(rt: HostRuntime) -> Result<(), Fail> {
    let (table, mut api) = HoldTable::new(rt.alloc(), 0)?;
    begin_and_join(&table, &mut api, 3);
    begin_and_join(&table, &mut api, 3);
    let mut enc = table.split(&mut api, 3);
    let number = table.draw_number(&mut enc);
    table.join(&mut api, enc);
    begin_and_join(&table, &mut api, 3);
    let next = table.advance(&mut api);
    table.close(api);
    assert_eq!(rt; (number, next), (0, 1));
    Ok(())
}

// Names the thing and draws a number.
fn name_and_draw(table: &HoldTable, mut enc: EncSeat, thing: Handle) -> (Answer, u64, EncSeat)
    requires table { enc_table enc ≡ table_of table.now }
    requires fresh { (enc_view enc).numbers ≡ [] }
    ensures table { enc_table result.2 ≡ table_of table.now }
    ensures whose { (enc_view result.2).encoder ≡ (enc_view enc).encoder }
{
    let named = table.name(&mut enc, thing);
    let number = table.draw_number(&mut enc);
    (named, number, enc)
}

// A frame in which two recorders name the thing and draw a number each, at once. It answers what they were told, whether
// their numbers differ and lie below the next frame's first, and that number.
fn one_frame<R: Threads>(
    rt: &R,
    table: &HoldTable,
    api: &mut ApiSeat,
    thing: Handle,
) -> (Answer, Answer, bool, u64)
    requires table { api_table api.old ≡ table_of table.now }
    requires none_begun { ((api_view api.old).off ≡ []) × ((api_view api.old).joined ≡ 0) }
    requires frame { (api_view api.old).frame < 100 }
    ensures table { api_table api.new ≡ table_of table.now }
    ensures none_begun { ((api_view api.new).off ≡ []) × ((api_view api.new).joined ≡ 0) }
    ensures frame { (api_view api.new).frame ≡ suc (api_view api.old).frame }
    ensures places { (api_view api.new).places ≡ (api_view api.old).places }
{
    let one = table.split(api, 0);
    let two = table.split(api, 1);
    let ((a, m, one), (b, n, two)) = thread::join(
        rt,
        move || name_and_draw(table, one, thing),
        move || name_and_draw(table, two, thing),
    );
    table.join(api, two);
    table.join(api, one);
    let next = table.advance(api);
    (a, b, m != n && m < next && n < next, next)
}

#[test]
fn three_frames(rt: HostRuntime) -> Result<(), Fail> {
    let (table, mut api) = HoldTable::new(rt.alloc(), 7)?;
    let thing = Handle::of(Kind::Program, 2, 1, Info::Plain);
    table.place_live(&mut api, thing);
    let live = one_frame(&rt, &table, &mut api, thing);
    table.place_dying(&mut api, thing);
    let dying = one_frame(&rt, &table, &mut api, thing);
    let dead = one_frame(&rt, &table, &mut api, thing);
    table.close(api);
    assert_eq!(rt; live, (Ok(()), Ok(()), true, 2));
    assert_eq!(rt; dying, (Ok(()), Ok(()), true, 4));
    let word = 137_438_953_478;
    assert_eq!(rt; dead.0, Err(Refusal::Stale { word }));
    assert_eq!(rt; dead.1, Err(Refusal::Stale { word }));
    assert_eq!(rt; (dead.2, dead.3), (true, 6));
    Ok(())
}
