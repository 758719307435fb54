// Journals of no frames and of the greatest entry, a lawful one, and how they are written. Which texts are none, and which are not lawful, is
// tried by cases of worked_cases.
use scene_text::{Journal, JournalFault, Sequence, fault_place, read_journal, write_journal};
use std::alloc::{AllocError, Global};
use std::test::Fail;

static TEXT: &[u8] = b"j 0:0 1:0\nj 1:2\n";

fn read_small(alloc: Global, text: &[u8], frames: u32) -> Result<Journal, JournalFault> {
    if text.len() > 100_000 {
        return Err(JournalFault::OutOfMemory);
    }
    read_journal(alloc, text, frames)
}

/// The place of a refusal, and 99 of a text that is read.
fn place(alloc: Global, text: &[u8], frames: u32) -> u32 {
    match read_small(alloc, text, frames) {
        Ok(_) => 99,
        Err(JournalFault::At { place }) => place,
        Err(JournalFault::OutOfMemory) => 1000,
    }
}

static ROWS: [(&[u8], u32, u32); 3] = [
    (b"", 0, 99),
    (b"j\n", 0, 0),
    (b"j 255:4294967295\n", 1, 99),
];

/// The accepted items of two frames of two encoders.
fn counts(alloc: Global, numbers: [u32; 4]) -> Result<Vec<Sequence<u32>>, AllocError> {
    let [a, b, c, d] = numbers;
    let mut all = Vec::new(alloc);
    for (first, second) in [(a, b), (c, d)] {
        let mut row = Sequence::new(alloc);
        row.push(first)?;
        row.push(second)?;
        all.push(row)?;
    }
    Ok(all)
}

/// Where a journal of two frames is first not lawful for two encoders' accepted items.
fn first_fault(alloc: Global, text: &[u8], numbers: [u32; 4]) -> Result<Option<u32>, JournalFault> {
    if text.len() > 100_000 {
        return Err(JournalFault::OutOfMemory);
    }
    let accepted = counts(alloc, numbers)?;
    let journal = read_journal(alloc, text, 2)?;
    Ok(fault_place(&journal, &accepted))
}

#[test]
fn a_journal_is_written_as_it_is_read(rt: HostRuntime) -> Result<(), Fail> {
    for (text, frames, wanted) in ROWS {
        assert_eq!(rt; place(rt.alloc(), text, frames), wanted);
    }
    assert_eq!(rt;
        first_fault(rt.alloc(), b"j 1:0 0:0\nj 1:0 1:1\n", [1, 1, 0, 2])?,
        None
    );
    assert_eq!(rt; first_fault(rt.alloc(), TEXT, [1, 1, 0, 3])?, Some(2));
    let journal = read_small(rt.alloc(), TEXT, 2)?;
    let written = write_journal(rt.alloc(), &journal)?;
    assert_eq!(rt; written.as_slice(), TEXT);
    Ok(())
}
