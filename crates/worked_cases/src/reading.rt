// The lines of a case.
use crate::case::{Case, Look, Program, Takes, Trouble, Wanted, Way};
use crate::gate::Hold;
use crate::judging::Ending;
use std::alloc::{AllocError, Global};

/// Reads a line behind the first one of a case. False where it is none.
pub(crate) fn read_line(alloc: Global, case: &mut Case, line: &str) -> Result<bool, AllocError> {
    let (word, rest) = line.split_once(' ').unwrap_or((line, ""));
    match word {
        "words" => put_words(alloc, case, rest),
        "here" => Ok(put_way(
            case,
            Way::Here {
                with_journal: rest == "--journal",
            },
        )),
        "again" => Ok(put_way(case, Way::Again)),
        "target" => put_target(alloc, case, rest),
        "queries" => Ok(put_way(case, Way::Queries)),
        "program" => Ok(put_program(case, rest)),
        "text" => Ok(put_text(case)),
        "line" => put_line(&mut case.text, 1, rest),
        "lines" => put_lines(case, rest),
        "bytes" => put_bytes(&mut case.text, rest),
        "repeat" => put_fill(alloc, &mut case.text, rest),
        "leaves" => Ok(put_nothing(case.current())),
        "or" => put_other(alloc, case),
        "pixels" => put_bytes(&mut case.current().pictures, rest),
        "fill" => put_fill(alloc, &mut case.current().pictures, rest),
        "output" => put_line(&mut case.current().pictures, 1, rest),
        "note" => put_line(&mut case.current().notes, 1, rest),
        _ => {
            let mut numbers = Vec::new(alloc);
            if !put_numbers(&mut numbers, rest)? {
                return Ok(false);
            }
            put_counts(alloc, case, word, &numbers)
        }
    }
}

// A word as it is written in a case: two quotes are the word without letters.
fn word_of(word: &str) -> &str {
    if word == "\"\"" { "" } else { word }
}

// The words of a run, each between blanks.
fn put_words(alloc: Global, case: &mut Case, rest: &str) -> Result<bool, AllocError> {
    case.way = Way::Words;
    case.words.clear();
    for word in rest.split(' ').filter(|word| !word.is_empty()) {
        case.words.push(word_of(word).to_string(alloc)?)?;
    }
    Ok(true)
}

fn put_way(case: &mut Case, way: Way) -> bool {
    case.way = way;
    true
}

// `program NAME`: the words are those of the program gfx_NAME.
fn put_program(case: &mut Case, name: &str) -> bool {
    match program_of(name) {
        Some(program) => put_way(case, Way::Program(program)),
        None => false,
    }
}

fn program_of(name: &str) -> Option<Program> {
    match name {
        "capture" => Some(Program::Capture),
        "shares" => Some(Program::Shares),
        "check" => Some(Program::Check),
        "diff" => Some(Program::Diff),
        "load" => Some(Program::Load),
        _ => None,
    }
}

// What is read begins anew.
fn put_text(case: &mut Case) -> bool {
    case.text.clear();
    true
}

// The pictures and the notes that are wanted begin anew.
fn put_nothing(wanted: &mut Wanted) -> bool {
    wanted.pictures.clear();
    wanted.notes.clear();
    true
}

fn put_line(text: &mut Vec<u8>, times: u32, line: &str) -> Result<bool, AllocError> {
    for _ in 0..times {
        text.extend_from_slice(line.as_bytes())?;
        text.push(b'\n')?;
    }
    Ok(true)
}

// `lines N TEXT`: a line so often.
fn put_lines(case: &mut Case, rest: &str) -> Result<bool, AllocError> {
    let (times, line) = rest.split_once(' ').unwrap_or((rest, ""));
    match times.parse::<u32>() {
        Ok(times) => put_line(&mut case.text, times, line),
        Err(_) => Ok(false),
    }
}

fn put_other(alloc: Global, case: &mut Case) -> Result<bool, AllocError> {
    case.others.push(Wanted::new(alloc))?;
    Ok(true)
}

// The value of a digit of sixteen.
fn digit(byte: u8) -> Option<u8> {
    match byte {
        b'0'..=b'9' => Some(byte - b'0'),
        b'a'..=b'f' => Some(byte - b'a' + 10),
        _ => None,
    }
}

// Bytes in pairs of digits.
fn put_bytes(bytes: &mut Vec<u8>, digits: &str) -> Result<bool, AllocError> {
    let mut high: Option<u8> = None;
    for byte in digits.as_bytes() {
        let Some(value) = digit(*byte) else {
            return Ok(false);
        };
        high = match high {
            Some(first) => {
                bytes.push(first.wrapping_mul(16).wrapping_add(value))?;
                None
            }
            None => Some(value),
        };
    }
    Ok(high.is_none())
}

// `fill N HEX` and `repeat N HEX`: the same bytes so often.
fn put_fill(alloc: Global, bytes: &mut Vec<u8>, rest: &str) -> Result<bool, AllocError> {
    let (times, digits) = rest.split_once(' ').unwrap_or((rest, ""));
    let Ok(times) = times.parse::<u32>() else {
        return Ok(false);
    };
    let mut unit = Vec::new(alloc);
    if !put_bytes(&mut unit, digits)? {
        return Ok(false);
    }
    for _ in 0..times {
        bytes.extend_from_slice(&unit)?;
    }
    Ok(true)
}

fn put_numbers(numbers: &mut Vec<u32>, rest: &str) -> Result<bool, AllocError> {
    for word in rest.split(' ') {
        match word.parse::<u32>() {
            Ok(number) => numbers.push(number)?,
            Err(_) => return Ok(false),
        }
    }
    Ok(true)
}

// A pixel of a frame that is looked into.
fn put_spot(case: &mut Case, numbers: &[u32]) -> bool {
    match numbers {
        [frame, x, y] => put_way(
            case,
            Way::Look {
                frame: *frame,
                look: Look::Target { x: *x, y: *y },
            },
        ),
        _ => false,
    }
}

// `target NAME F X Y`: a pixel of the frame buffer of a name, which is the case's only word.
fn put_target(alloc: Global, case: &mut Case, rest: &str) -> Result<bool, AllocError> {
    let (name, places) = rest.split_once(' ').unwrap_or((rest, ""));
    let mut numbers = Vec::new(alloc);
    if !put_numbers(&mut numbers, places)? {
        return Ok(false);
    }
    if !put_words(alloc, case, name)? {
        return Ok(false);
    }
    Ok(put_spot(case, &numbers))
}

// The lines of numbers.
fn put_counts(
    alloc: Global,
    case: &mut Case,
    word: &str,
    numbers: &[u32],
) -> Result<bool, AllocError> {
    match word {
        "status" => Ok(put_status(case.current(), numbers)),
        "frames" => Ok(put_frames(case.current(), numbers)),
        "picture" => put_header(alloc, &mut case.current().pictures, numbers),
        "put" => Ok(put_cut(&mut case.trouble, numbers)),
        "reads" => put_calls(&mut case.trouble.reads, numbers),
        "pictures" => put_takes(&mut case.trouble.pictures, numbers),
        "notes" => put_takes(&mut case.trouble.notes, numbers),
        "hold" => put_hold(&mut case.trouble.holds, numbers),
        "seed" => Ok(put_seed(&mut case.trouble, numbers)),
        "items" => Ok(put_items(&mut case.trouble, numbers)),
        "steps" => Ok(put_look(case, Look::Steps, numbers)),
        "blame" => Ok(put_look(case, Look::Blame, numbers)),
        "ring" => Ok(put_ring(case, numbers)),
        _ => Ok(false),
    }
}

// A number of a byte, or 255.
fn narrow(number: u32) -> u8 {
    u8::try_from(number).unwrap_or(u8::MAX)
}

// `status N`, and behind it the line or the entry, and the cause.
fn ending_of(numbers: &[u32]) -> Option<Ending> {
    match numbers {
        [status] => Some(Ending::plain(narrow(*status))),
        [status, at] => Some(Ending {
            status: narrow(*status),
            at: *at,
            cause: 0,
        }),
        [status, at, cause] => Some(Ending {
            status: narrow(*status),
            at: *at,
            cause: *cause,
        }),
        _ => None,
    }
}

fn put_status(wanted: &mut Wanted, numbers: &[u32]) -> bool {
    match ending_of(numbers) {
        Some(ending) => {
            wanted.ending = ending;
            true
        }
        None => false,
    }
}

fn put_frames(wanted: &mut Wanted, numbers: &[u32]) -> bool {
    match numbers {
        [frames] => {
            wanted.frames = *frames as usize;
            true
        }
        _ => false,
    }
}

// The bytes before a picture's pixels.
fn put_header(alloc: Global, pictures: &mut Vec<u8>, numbers: &[u32]) -> Result<bool, AllocError> {
    match numbers {
        [width, height] => {
            let header = format!(in alloc; "P6\n{width} {height}\n255\n")?;
            pictures.extend_from_slice(header.as_bytes())?;
            Ok(true)
        }
        _ => Ok(false),
    }
}

fn put_cut(trouble: &mut Trouble, numbers: &[u32]) -> bool {
    match numbers {
        [pictures, notes] => {
            trouble.put = Some((*pictures as usize, *notes as usize));
            true
        }
        _ => false,
    }
}

fn put_calls(calls: &mut Vec<u32>, numbers: &[u32]) -> Result<bool, AllocError> {
    calls.extend_from_slice(numbers)?;
    Ok(true)
}

fn put_takes(takes: &mut Takes, numbers: &[u32]) -> Result<bool, AllocError> {
    match numbers {
        [capacity, most, calls @ ..] => {
            takes.capacity = *capacity as usize;
            takes.most = *most as usize;
            put_calls(&mut takes.fails, calls)
        }
        _ => Ok(false),
    }
}

fn put_hold(holds: &mut Vec<Hold>, numbers: &[u32]) -> Result<bool, AllocError> {
    match numbers {
        [held, at, awaited, item, times] => {
            holds.push(Hold {
                held: (narrow(*held), *at),
                awaited: (narrow(*awaited), *item),
                times: *times,
            })?;
            Ok(true)
        }
        _ => Ok(false),
    }
}

fn put_seed(trouble: &mut Trouble, numbers: &[u32]) -> bool {
    match numbers {
        [seed] => {
            trouble.seed = Some(*seed);
            true
        }
        _ => false,
    }
}

fn put_items(trouble: &mut Trouble, numbers: &[u32]) -> bool {
    match numbers {
        [items] => {
            trouble.items = Some(*items);
            true
        }
        _ => false,
    }
}

// `steps F` or `blame F`: the frame that is looked into.
fn put_look(case: &mut Case, look: Look, numbers: &[u32]) -> bool {
    match numbers {
        [frame] => put_way(
            case,
            Way::Look {
                frame: *frame,
                look,
            },
        ),
        _ => false,
    }
}

// `ring N`: so many frames of the ring, at most 65,535.
fn put_ring(case: &mut Case, numbers: &[u32]) -> bool {
    match numbers {
        [frames] => {
            let frames = u16::try_from(*frames).unwrap_or(u16::MAX);
            put_way(case, Way::Ring { frames })
        }
        _ => false,
    }
}
