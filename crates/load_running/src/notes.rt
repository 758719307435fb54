// The notes of a history.
ghost use Rattle.std.specs.Prelude.{◌≡◌, option_map, IfOk};
ghost use Rattle.res_lock.specs.Seen.{reply_seen, entry_seen, entries_seen};
ghost use Rattle.load_running.specs.Notes as notes;
ghost use Rattle.load_running.specs.Pushed.{IsPushed};

use res_lock::{Entry, ResReply};
use std::alloc::{AllocError, Global};

/// How a reply is noted: none where a frame was not given, behind that, and where an encoder begins.
fn reply_note(alloc: Global, reply: &ResReply) -> Result<Option<Vec<u8>>, AllocError>
    ensures { IfOk result (λ o. option_map (λ note. note.items) o ≡ notes.reply_note (reply_seen reply.now)) }
{
    match reply {
        ResReply::Made { handle } => {
            let index = handle.index();
            let serial = handle.serial();
            let note = format!(in alloc; " index {index} serial {serial}")?;
            Ok(Some(note.into_bytes()))
        }
        ResReply::Unit => {
            let note = format!(in alloc; " done")?;
            Ok(Some(note.into_bytes()))
        }
        ResReply::Frame { number } => {
            let note = format!(in alloc; " frame {number}")?;
            Ok(Some(note.into_bytes()))
        }
        ResReply::Refused { refusal } => {
            let number = refusal.number();
            let note = format!(in alloc; " refused {number}")?;
            Ok(Some(note.into_bytes()))
        }
        ResReply::Begun { .. } | ResReply::Ending { .. } | ResReply::Ended { .. } => Ok(None),
    }
}

/// The line of an entry, behind others. False where it has none.
fn push_entry(alloc: Global, text: &mut Vec<u8>, entry: &Entry) -> Result<bool, AllocError>
    ensures { IfOk result (λ is_noted. IsPushed is_noted (notes.entry_note (entry_seen entry.now)) text.old.items text.new.items) }
{
    match reply_note(alloc, &entry.reply)? {
        Some(reply) => {
            let caller = entry.caller;
            let ordinal = entry.ordinal;
            let head = format!(in alloc; "{caller}:{ordinal}")?;
            text.extend_from_slice(head.as_bytes())?;
            text.extend_from_slice(&reply)?;
            text.push(b'\n')?;
            Ok(true)
        }
        None => Ok(false),
    }
}

/// The lines of a history: none where an entry has none.
///
/// # Errors
///
/// `AllocError` for want of memory alone.
pub(crate) fn history_notes(alloc: Global, entries: &[Entry]) -> Result<Option<Vec<u8>>, AllocError>
    ensures { IfOk result (λ o. option_map (λ text. text.items) o ≡ notes.notes_of (entries_seen entries.now)) }
{
    let mut text = Vec::new(alloc);
    for entry in entries {
        if !push_entry(alloc, &mut text, entry)? {
            return Ok(None);
        }
    }
    Ok(Some(text))
}
