// A row of numbers.
use slot_row::Row;
use std::test::Fail;

#[test]
fn a_thing_put_and_taken(rt: HostRuntime) -> Result<(), Fail> {
    let mut row = Row::new(rt.alloc(), 3)?;
    row.put(2, 7u8);
    assert_eq!(rt; row.get(1).copied(), None);
    assert_eq!(rt; row.get(2).copied(), Some(7));
    assert_eq!(rt; row.get(3).copied(), None);
    assert_eq!(rt; row.take(3), None);
    assert_eq!(rt; row.take(2), Some(7));
    assert_eq!(rt; row.take(2), None);
    Ok(())
}
