// How scenes are written again, which bytes are no digits, and where a front ends.
use scene_text::{Scene, SceneFault, read, read_front, write};
use std::alloc::{AllocError, Global};
use std::test::Fail;

/// The scene of one clear and one touch, with another text in place of one of its lines, counted from 1.
fn changed(alloc: Global, number: usize, change: &[u8]) -> Result<Vec<u8>, AllocError> {
    let lines: [&[u8]; 8] = [
        b"scene 1",
        b"size 2 2",
        b"encoders 1",
        b"frame",
        b"view 0 clear 1 ff0000ff 0 0",
        b"encoder 0",
        b"touch 0",
        b"done",
    ];
    let mut text = Vec::new(alloc);
    for (place, line) in lines.iter().enumerate() {
        let piece = if place + 1 == number { change } else { *line };
        text.extend_from_slice(piece)?;
        text.push(b'\n')?;
    }
    Ok(text)
}

fn read_small(alloc: Global, text: &[u8]) -> Result<Scene, SceneFault> {
    if text.len() > 100_000 {
        return Err(SceneFault::At { line: 0, cause: 0 });
    }
    read(alloc, text)
}

/// The line and the cause of a refusal, and (0, 0) of a text that is read.
fn fault(alloc: Global, text: &[u8]) -> Option<(u32, u8)> {
    match read_small(alloc, text) {
        Ok(_) => Some((0, 0)),
        Err(SceneFault::At { line, cause }) => Some((line, cause)),
        Err(SceneFault::OutOfMemory) => None,
    }
}

fn changed_fault(alloc: Global, number: usize, change: &[u8]) -> Option<(u32, u8)> {
    match changed(alloc, number, change) {
        Ok(text) => fault(alloc, &text),
        Err(_) => None,
    }
}

static CREATES: &[u8] =
    b"layout p position:fixed:2 color0:u8:4 skip:1\nvb v p 00ff\nib i -\ntexture t 1 1 rgba8 dst fill:202020ff\ntexture d 1 1 d24s8 - hex:00000000\nfb f t d\nfb g t -\nprogram s solid\nuniform u vec4\nuniform u int\nupdate v 1 00\ntexupdate t 0 0 1 1 00000000\ndestroy g\nview 0 rect 0 0 1 1\nview 0 scissor 0 0 1 1\nview 0 mode ascending\nview 0 target f\nview 0 target -\nview 0 transform 1 -2 3 4 5 6 7 8 9 10 11 -2147483648\nview 0 reset\norder\norder 1 0 65535\nencoder 0\nstate 18446744073709551615\nstencil 1 4294967295\nscissor 0 0 1 1\ntransform 0 0 0 0 0 0 0 0 0 0 0 2147483647\nvertices v 0 4294967295\nindices i 0 0\ntvertices p 00\ntindices -\nbind 255 -\nbind 0 t\nset u 1\nset u 1 2 3 -4\nsubmit 0 s 0 255\nblit 0 t 0 0 d 0 0 1 1";

/// A scene's text, read and written again.
fn written(alloc: Global, text: &[u8]) -> Result<Vec<u8>, SceneFault> {
    let scene = read_small(alloc, text)?;
    match write(alloc, &scene) {
        Ok(bytes) => Ok(bytes),
        Err(_) => Err(SceneFault::OutOfMemory),
    }
}

/// Texts, and what is written of them: a latency always in version 2, a room always, no comment and no empty list.
static WRITTEN: [(&[u8], &[u8]); 3] = [
    (
        b"scene 2\nsize 1 1\nencoders 1\nframe\nbeside\ndone\n",
        b"scene 2\nsize 1 1\nencoders 1\nroom 8191 262144 4096\nlatency 1\nframe\ndone\n",
    ),
    (
        b"scene 1\nsize 2 2\nencoders 1\nframe\nview 0 clear 1 ff0000ff 0 0\nencoder 0\ntouch 0\n# more\nbeside\ndone\n",
        b"scene 1\nsize 2 2\nencoders 1\nroom 8191 262144 4096\nframe\nview 0 clear 1 ff0000ff 0 0\nencoder 0\ntouch 0\ndone\n",
    ),
    (
        b"scene 2\nsize 3 4\nencoders 2\nroom 10 20 30\nlatency 2\nframe\nview 511 clear 3 01020304 5 0\nencoder 0\ntouch 0\nencoder 1\ntouch 511\nbeside\nview 0 clear 1 ff0000ff 0 0\nframe\nencoder 1\ntouch 1\ndone\n",
        b"scene 2\nsize 3 4\nencoders 2\nroom 10 20 30\nlatency 2\nframe\nview 511 clear 3 01020304 5 0\nencoder 0\ntouch 0\nencoder 1\ntouch 511\nbeside\nview 0 clear 1 ff0000ff 0 0\nframe\nencoder 1\ntouch 1\ndone\n",
    ),
];

/// A text with the plain room behind its first three lines, 28 bytes, as a scene without a room is written.
fn with_room(alloc: Global, text: &[u8]) -> Result<Vec<u8>, AllocError> {
    let at = text.len().min(28);
    let mut wanted = Vec::from_slice(alloc, &text[..at])?;
    wanted.extend_from_slice(b"room 8191 262144 4096\n")?;
    wanted.extend_from_slice(&text[at..])?;
    Ok(wanted)
}

/// A text is written as it is read, but for its room.
fn is_kept(alloc: Global, number: usize, change: &[u8]) -> Result<bool, SceneFault> {
    let text = changed(alloc, number, change)?;
    let wanted = with_room(alloc, &text)?;
    Ok(written(alloc, &text)? == wanted)
}

#[test]
fn scenes_are_written_as_they_are_read(rt: HostRuntime) -> Result<(), Fail> {
    for (text, wanted) in WRITTEN {
        assert_eq!(rt; written(rt.alloc(), text)?.as_slice(), wanted);
    }
    assert!(rt; is_kept(rt.alloc(), 6, CREATES)?);
    Ok(())
}

// The bytes from 00 to 27 in digits of sixteen.
const DIGITS: &[u8] =
    b"000102030405060708090a0b0c0d0e0f101112131415161718191a1b1c1d1e1f2021222324252627";

// Bytes of a field that are no digits, the neighbours of digits among them.
const NO_DIGITS: &[u8] = b"!/:@AF`g~";

/// An `ib` line of these digits.
fn index_line(alloc: Global, digits: &[u8]) -> Result<Vec<u8>, AllocError> {
    let mut line = Vec::from_slice(alloc, b"ib i ")?;
    line.extend_from_slice(digits)?;
    Ok(line)
}

// Whole sixteens of bytes, and rests of each length.
#[test]
fn bytes_are_written_as_they_are_read(rt: HostRuntime) -> Result<(), Fail> {
    for count in 1..41usize {
        let end = DIGITS.len().min(2 * count);
        let line = index_line(rt.alloc(), &DIGITS[..end])?;
        assert!(rt; is_kept(rt.alloc(), 5, &line)?, "{count}");
    }
    Ok(())
}

/// The fault of a text with another byte in place of one of the digits.
fn digit_fault(alloc: Global, place: usize, byte: u8) -> Result<Option<(u32, u8)>, AllocError> {
    let mut digits = Vec::from_slice(alloc, DIGITS)?;
    if let Some(digit) = digits.get_mut(place) {
        *digit = byte;
    }
    let line = index_line(alloc, &digits)?;
    Ok(changed_fault(alloc, 5, &line))
}

#[test]
fn each_digit_is_tested(rt: HostRuntime) -> Result<(), Fail> {
    for byte in NO_DIGITS {
        for place in 0..DIGITS.len() {
            let found = digit_fault(rt.alloc(), place, *byte)?;
            assert_eq!(rt; found, Some((5, 11)), "{place}");
        }
    }
    Ok(())
}

fn front(alloc: Global, text: &[u8]) -> Option<(usize, u32, u8)> {
    if text.len() > 100_000 {
        return None;
    }
    match read_front(alloc, text) {
        Ok((_, place)) => Some((place, 0, 0)),
        Err(SceneFault::At { line, cause }) => Some((0, line, cause)),
        Err(SceneFault::OutOfMemory) => None,
    }
}

#[test]
fn a_front_ends_behind_its_done_line(rt: HostRuntime) -> Result<(), Fail> {
    let alloc = rt.alloc();
    let whole = changed(alloc, 8, b"done\nj 0:0")?;
    assert_eq!(rt; front(alloc, &whole), Some((85, 0, 0)));
    let cut = changed(alloc, 8, b"# done")?;
    assert_eq!(rt; front(alloc, &cut), Some((0, 9, 2)));
    Ok(())
}
