// How a journal is written.
ghost use Rattle.std.specs.Prelude.{◌≡◌, ◌++◌, map, flat_map, length, Ok, IfOk};
ghost use Rattle.std.specs.List.{AllByRecursion};
ghost use Rattle.scene_model.specs.JournalText.{journal_of};
ghost use Rattle.scene_model.specs.TextLaws.{IsSpellable};
ghost use Rattle.scene_model.specs.Output.{entry_text, journal_line, journal_text};
ghost use Rattle.scene_text.specs.Seen.{entry_seen, journal_seen};

use crate::journal::Journal;
use crate::sequence::Sequence;
use crate::spelled::put_number;
use gfx_words::JournalEntry;
use std::alloc::{AllocError, Global};

fn put_entry(text: &mut Vec<u8>, entry: JournalEntry) -> Result<(), AllocError>
    ensures { IfOk result (λ _. text.new.items ≡ text.old.items ++ entry_text (entry_seen entry)) }
{
    text.push(b' ')?;
    put_number(text, u64::from(entry.encoder))?;
    text.push(b':')?;
    put_number(text, u64::from(entry.ordinal))?;
    Ok(())
}

fn put_entries(text: &mut Vec<u8>, entries: &[JournalEntry]) -> Result<(), AllocError>
    ensures { IfOk result (λ _. text.new.items ≡ text.old.items ++ flat_map entry_text (map entry_seen entries.now)) }
{
    for entry in entries {
        put_entry(text, *entry)?;
    }
    Ok(())
}

/// The line of a frame.
fn put_frame(text: &mut Vec<u8>, entries: &[JournalEntry]) -> Result<(), AllocError>
    ensures { IfOk result (λ _. text.new.items ≡ text.old.items ++ journal_line (map entry_seen entries.now)) }
{
    text.push(b'j')?;
    put_entries(text, entries)?;
    text.push(b'\n')?;
    Ok(())
}

fn put_frames(text: &mut Vec<u8>, frames: &[Sequence<JournalEntry>]) -> Result<(), AllocError>
    ensures { IfOk result (λ _. text.new.items ≡ text.old.items ++ journal_text (map (map entry_seen) frames.now)) }
{
    for frame in frames {
        put_frame(text, frame.as_slice())?;
    }
    Ok(())
}

/// The text of a journal: a line for each frame, and no skipped lines. It is read as that journal again; the numbers of an
/// entry are in their ranges by their types, and `read_journal` tells it of what it answers.
///
/// # Errors
///
/// `AllocError` where no memory is left for the text.
pub fn write_journal(alloc: Global, journal: &Journal) -> Result<Vec<u8>, AllocError>
    ensures text { IfOk result (λ v. v.items ≡ journal_text (journal_seen journal.now)) }
    ensures again { IfOk result (λ v. AllByRecursion (AllByRecursion IsSpellable) (journal_seen journal.now) → journal_of v.items (length (journal_seen journal.now)) ≡ Ok (journal_seen journal.now)) }
{
    let mut text = Vec::new(alloc);
    put_frames(&mut text, journal.frames.as_slice())?;
    Ok(text)
}
