// The lines of a frame's pairs.
ghost use Rattle.std.specs.Prelude.{◌≡◌, ◌++◌, ℕ, [], map, slice_index_or, IfOk};
ghost use Rattle.shared_items.specs.Lines.{numbers_seen, number_in, head_text, entry_text, numbered_pair, both_lines, paired_lines};
ghost use Rattle.shared_items.specs.Seen.{pair_seen};

use crate::pairs::ItemPair;
use shared_keys::{SharedView, push_lines};
use std::alloc::{AllocError, Global};

/// The numbers of an encoder's lines.
fn numbers_of(numbers: &[Vec<u32>], encoder: u8) -> &[u32]
    ensures { result.now ≡ slice_index_or (numbers_seen numbers.now) encoder [] }
{
    match numbers.get(encoder as usize) {
        Some(lines) => lines.as_slice(),
        None => &[],
    }
}

/// The number of the line that records an encoder's item; 0 where there is none.
fn number_of(numbers: &[Vec<u32>], encoder: u8, item: usize) -> u32
    ensures { result ≡ number_in (numbers_seen numbers.now) encoder item }
{
    match numbers_of(numbers, encoder).get(item) {
        Some(line) => *line,
        None => 0,
    }
}

/// Puts the beginning of a pair's line behind others.
fn push_head(alloc: Global, lines: &mut Vec<u8>, frame: usize, view: u16) -> Result<(), AllocError>
    ensures { IfOk result (λ _. lines.new.items ≡ lines.old.items ++ head_text frame view) }
{
    let head = format!(in alloc; "pair frame {frame} view {view}")?;
    lines.extend_from_slice(head.as_bytes())?;
    Ok(())
}

/// Puts an item of a pair's line behind others.
fn push_entry(
    alloc: Global,
    lines: &mut Vec<u8>,
    encoder: u8,
    item: usize,
    line: u32,
) -> Result<(), AllocError>
    ensures { IfOk result (λ _. lines.new.items ≡ lines.old.items ++ entry_text encoder item line) }
{
    let entry = format!(in alloc; " encoder {encoder} item {item} line {line}")?;
    lines.extend_from_slice(entry.as_bytes())?;
    Ok(())
}

/// Puts the line of a pair behind others, where its items' lines have these numbers.
fn push_pair(
    alloc: Global,
    lines: &mut Vec<u8>,
    frame: usize,
    pair: &ItemPair,
    first_line: u32,
    second_line: u32,
) -> Result<(), AllocError>
    ensures { IfOk result (λ _. lines.new.items ≡ lines.old.items ++ numbered_pair frame (pair_seen pair.now) first_line second_line) }
{
    push_head(alloc, lines, frame, pair.view)?;
    push_entry(alloc, lines, pair.first, pair.first_item, first_line)?;
    push_entry(alloc, lines, pair.second, pair.second_item, second_line)?;
    lines.push(b'\n')?;
    Ok(())
}

/// Puts both lines of a pair behind others.
fn push_both(
    alloc: Global,
    lines: &mut Vec<u8>,
    frame: usize,
    numbers: &[Vec<u32>],
    pair: &ItemPair,
) -> Result<(), AllocError>
    ensures { IfOk result (λ _. lines.new.items ≡ lines.old.items ++ both_lines frame (numbers_seen numbers.now) (pair_seen pair.now)) }
{
    let shared = [SharedView {
        view: pair.view,
        first: pair.first,
        second: pair.second,
    }];
    push_lines(alloc, lines, frame, &shared)?;
    let first_line = number_of(numbers, pair.first, pair.first_item);
    let second_line = number_of(numbers, pair.second, pair.second_item);
    push_pair(alloc, lines, frame, pair, first_line, second_line)?;
    Ok(())
}

/// Puts the lines of a frame's pairs behind others: for each pair that of its view, as `shared_keys` has it, and behind it that of the pair.
/// `numbers` are those of the lines of the scene's text that record the frame's items, of each encoder in the order of its items.
///
/// # Errors
///
/// For want of memory alone.
pub fn push_pair_lines(
    alloc: Global,
    lines: &mut Vec<u8>,
    frame: usize,
    numbers: &[Vec<u32>],
    pairs: &[ItemPair],
) -> Result<(), AllocError>
    ensures { IfOk result (λ _. lines.new.items ≡ lines.old.items ++ paired_lines frame (numbers_seen numbers.now) (map pair_seen pairs.now)) }
{
    for pair in pairs {
        push_both(alloc, lines, frame, numbers, pair)?;
    }
    Ok(())
}
