// How the text of a journal is read.
ghost use Rattle.std.specs.Prelude.{◌≡◌, ◌+◌, ◌<◌, ◌≤◌, ◌^◌, ℕ, List, ◌∷◌, length, option_map, Result, IfOk};
ghost use Rattle.scene_model.specs.Journal as model;
ghost use Rattle.scene_model.specs.JournalText.{number_within, entry_field, entries_in, entries_behind, entries_of_line, after_line, journal_pieces, at_last_piece, journal_of};
ghost use Rattle.scene_model.specs.TextLaws.{IsSpellable};
ghost use Rattle.std.specs.List.{AllByRecursion};
ghost use Rattle.text_fields.specs.Fields.{texts};
ghost use Rattle.scene_text.specs.Seen.{entry_seen, journal_seen};
ghost use Rattle.scene_text.specs.Journals.{ReadsJournal, Passes, entry_count, behind_frames, entries_seen, frames_read, IsOnePiece};

use crate::journal::{Journal, JournalFault};
use crate::numbers::value_to;
use crate::reading::is_skipped;
use crate::sequence::Sequence;
use crate::words::is;
use gfx_words::JournalEntry;
use std::alloc::{AllocError, Global};
use text_fields::{find, is_numeral, split_fields};

/// The entries of a line up to the first field that is none, and whether there is no such field.
#[derive(Drop)]
struct LineEntries {
    pub entries: Vec<JournalEntry>,
    pub is_whole: bool,
}

/// A number up to `high`.
fn number_within(field: &[u8], high: u32) -> Option<u32>
    ensures value { result ≡ number_within high field.now }
{
    if !is_numeral(field) {
        return None;
    }
    value_to(field, high)
}

/// Whether a field has no `:`.
fn is_one_piece(field: &[u8]) -> bool
    ensures { IsOnePiece result field.now }
{
    match find(field, b':') {
        Some(_) => false,
        None => true,
    }
}

/// `E:O`
fn entry(field: &[u8]) -> Option<JournalEntry>
    ensures { option_map entry_seen result ≡ entry_field field.now }
{
    let colon = find(field, b':')?;
    let ordinal = &field[colon + 1..];
    if !is_one_piece(ordinal) {
        return None;
    }
    let encoder = number_within(&field[..colon], 255)?;
    let ordinal = number_within(ordinal, 4_294_967_295)?;
    Some(JournalEntry {
        encoder: encoder as u8,
        ordinal,
    })
}

/// The entries of fields.
fn entries_in(alloc: Global, fields: &[&[u8]]) -> Result<LineEntries, AllocError>
    ensures { IfOk result (λ r. entries_seen r ≡ entries_in (texts fields.now)) }
{
    let mut entries = Vec::new(alloc);
    for field in fields {
        match entry(field) {
            Some(found) => entries.push(found)?,
            None => {
                return Ok(LineEntries {
                    entries,
                    is_whole: false,
                });
            }
        }
    }
    Ok(LineEntries {
        entries,
        is_whole: true,
    })
}

/// The entries behind the word `j`; no other line has any.
fn entries_behind(alloc: Global, fields: &[&[u8]]) -> Result<LineEntries, AllocError>
    ensures { IfOk result (λ r. entries_seen r ≡ entries_behind (texts fields.now)) }
{
    match fields {
        [word, rest @ ..] => {
            if is(word, b"j") {
                let found = entries_in(alloc, rest)?;
                return Ok(found);
            }
        }
        [] => {}
    }
    Ok(LineEntries {
        entries: Vec::new(alloc),
        is_whole: false,
    })
}

/// The entries of a line. The list of fields is room to split the line in.
fn line_entries<'a>(
    alloc: Global,
    line: &'a [u8],
    fields: &mut Vec<&'a [u8]>,
) -> Result<LineEntries, AllocError>
    ensures value { IfOk result (λ r. entries_seen r ≡ entries_of_line line.now) }
    ensures few { IfOk result (λ r. length r.entries.items ≤ length line.now) }
{
    split_fields(line, b' ', fields)?;
    let found = entries_behind(alloc, fields)?;
    Ok(found)
}

/// The frames that were read, the number of frames that are left, and the number of entries that were read.
#[derive(Drop)]
struct JournalReading {
    pub frames: Vec<Sequence<JournalEntry>>,
    pub left: u32,
    pub place: u32,
}

impl JournalReading {
    /// What the entries of a line do, of a line that may stand here.
    fn after_entries(&mut self, found: LineEntries) -> Result<(), JournalFault>
        requires expected { 0 < self.old.left }
        requires small { self.old.place + length found.entries.items < 2 ^ 32 }
        ensures after { (rest : Result model.Journal ℕ) → Passes result
            (behind_frames (frames_read self.old) self.old.place (after_line (entries_seen found) rest))
            (behind_frames (frames_read self.new) self.new.place rest) }
        ensures left { IfOk result (λ _. self.new.left + 1 ≡ self.old.left) }
        ensures place { self.new.place ≡ self.old.place + length found.entries.items }
    {
        self.place += found.entries.len() as u32;
        if !found.is_whole {
            return Err(JournalFault::At { place: self.place });
        }
        self.frames.push(Sequence::from_vec(found.entries))?;
        self.left -= 1;
        Ok(())
    }

    /// What a line does, skipped or not. The list of fields is room to split the line in.
    fn after_line<'a>(
        &mut self,
        alloc: Global,
        line: &'a [u8],
        fields: &mut Vec<&'a [u8]>,
    ) -> Result<(), JournalFault>
        requires { self.old.place + length line.now < 2 ^ 32 }
        ensures after { (next : List ℕ) (rest : List (List ℕ)) → Passes result
            (behind_frames (frames_read self.old) self.old.place (journal_pieces (line.now ∷ next ∷ rest) self.old.left))
            (behind_frames (frames_read self.new) self.new.place (journal_pieces (next ∷ rest) self.new.left)) }
        ensures place { self.new.place ≤ self.old.place + length line.now }
    {
        if is_skipped(line) {
            return Ok(());
        }
        if self.left == 0 {
            return Err(JournalFault::At { place: self.place });
        }
        let found = line_entries(alloc, line, fields)?;
        self.after_entries(found)
    }
}

/// What the last piece makes, which no newline ends.
fn at_last_piece<'a>(
    alloc: Global,
    reading: JournalReading,
    rest: &'a [u8],
    fields: &mut Vec<&'a [u8]>,
) -> Result<Journal, JournalFault>
    requires { reading.place + length rest.now < 2 ^ 32 }
    ensures { ReadsJournal result (behind_frames (frames_read reading) reading.place (at_last_piece reading.left rest.now)) }
{
    let place = reading.place;
    if rest.is_empty() {
        if reading.left == 0 {
            return Ok(Journal {
                frames: Sequence::from_vec(reading.frames),
            });
        }
        return Err(JournalFault::At { place });
    }
    if reading.left == 0 {
        return Err(JournalFault::At { place });
    }
    let found = line_entries(alloc, rest, fields)?;
    Err(JournalFault::At {
        place: place + found.entries.len() as u32,
    })
}

/// The journal that the bytes are, for a scene of `frames` frames, or how many entries stand wholly before the first
/// fault.
///
/// The lines are those of the journal text of `docs/formats.md`. The bytes are at most 4,294,967,294, and a journal has no
/// more entries than bytes.
///
/// # Errors
///
/// `JournalFault::At` where the bytes are no journal of so many frames, and `JournalFault::OutOfMemory` where no memory
/// is left for it.
pub fn read_journal(alloc: Global, bytes: &[u8], frames: u32) -> Result<Journal, JournalFault>
    requires { length bytes.now ≤ 4294967294 }
    ensures exact { ReadsJournal result (journal_of bytes.now frames) }
    ensures few { IfOk result (λ j. entry_count (journal_seen j) ≤ length bytes.now) }
    ensures spellable { IfOk result (λ j. AllByRecursion (AllByRecursion IsSpellable) (journal_seen j)) }
{
    let mut reading = JournalReading {
        frames: Vec::new(alloc),
        left: frames,
        place: 0,
    };
    let mut fields = Vec::new(alloc);
    let mut rest = bytes;
    while let Some(n) = find(rest, b'\n') {
        match reading.after_line(alloc, &rest[..n], &mut fields) {
            Ok(()) => {}
            Err(fault) => return Err(fault),
        }
        rest = &rest[n + 1..];
    }
    at_last_piece(alloc, reading, rest, &mut fields)
}
