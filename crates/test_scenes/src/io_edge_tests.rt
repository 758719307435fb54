// Each source and sink once with ample memory, and the faults of those that fail.
ghost use Rattle.std.specs.Prelude.{◌<◌, length};

use io_edge::{Failed, MemSink, MemSource, Sink, Source, StdSink, StdSource, SureSink};
use std::alloc::{AllocError, Global};
use std::io;
use std::io::{ErrorKind, Write};

// What a call of a source or of a sink answered.
type Answer = Result<usize, Failed>;

// What a source answers to room for three bytes, three times, and what is in the room behind the first and the second answer.
fn three_taken<S: Source>(source: &mut S) -> ([Answer; 3], [[u8; 3]; 2]) {
    let mut room = [0; 3];
    let first = source.take(&mut room);
    let at_first = room;
    let second = source.take(&mut room);
    let behind = room;
    ([first, second, source.take(&mut room)], [at_first, behind])
}

#[test]
fn std_source_gives_what_its_reader_has(rt: HostRuntime) {
    let bytes: &[u8] = b"abcde";
    let told = three_taken(&mut StdSource::new(bytes));
    assert_eq!(rt; told, ([Ok(3), Ok(2), Ok(0)], [*b"abc", *b"dec"]));
}

// What a sink answers to two texts.
fn both_put<S: Sink>(sink: &mut S, first: &[u8], second: &[u8]) -> [Answer; 2]
    requires { (0 < length first.now) × (0 < length second.now) }
{
    [sink.put(first), sink.put(second)]
}

#[test]
fn std_sink_hands_on_what_it_is_given(rt: HostRuntime) {
    let mut written = Vec::new(rt.alloc());
    let answers = both_put(&mut StdSink::new(&mut written), b"abc", b"de");
    let same = written.as_slice() == b"abcde".as_slice();
    drop(written);
    assert_eq!(rt; (answers, same), ([Ok(3), Ok(2)], true));
}

#[test]
fn std_sink_fails_where_no_byte_is_taken(rt: HostRuntime) {
    let mut room = [0; 2];
    let answers = both_put(&mut StdSink::new(&mut room[..]), b"abc", b"c");
    assert_eq!(rt; answers, [Ok(2), Err(Failed)]);
}

// A writer that takes all and cannot flush.
#[derive(Drop)]
struct Stuck;

impl Write for Stuck {
    fn write(&mut self, buf: &[u8]) -> io::Result<usize> {
        Ok(buf.len())
    }

    fn flush(&mut self) -> io::Result<()> {
        Err(io::Error::from(ErrorKind::Other))
    }
}

#[test]
fn std_sink_fails_where_its_writer_does_not_flush(rt: HostRuntime) {
    assert_eq!(rt; StdSink::new(Stuck).put(b"abc"), Err(Failed));
}

// What a source of five bytes, whose second call fails, answers to room for three bytes, four times, and what is in the room then.
fn listed(alloc: Global) -> Result<([Answer; 4], [u8; 3]), AllocError> {
    let bytes = Vec::from_slice(alloc, b"abcde")?;
    let fails = Vec::from_slice(alloc, &[1])?;
    let mut source = MemSource::new(bytes, fails);
    let mut room = [0; 3];
    let answers = [
        source.take(&mut room),
        source.take(&mut room),
        source.take(&mut room),
    ];
    let behind = room;
    let last = source.take(&mut room);
    Ok(([answers[0], answers[1], answers[2], last], behind))
}

#[test]
fn mem_source_fails_at_its_listed_call(rt: HostRuntime) {
    let told = listed(rt.alloc()).expect(&rt, "memory");
    assert_eq!(rt; told, ([Ok(3), Err(Failed), Ok(2), Ok(0)], *b"dec"));
}

// What a sink of five bytes, whose second call fails, answers to four texts, and whether it has the first five bytes.
fn limited(alloc: Global) -> Result<([Answer; 4], bool), AllocError> {
    let fails = Vec::from_slice(alloc, &[1])?;
    let mut sink = MemSink::new(alloc, 5, 3, fails)?;
    let [first, failed] = both_put(&mut sink, b"abcdefgh", b"defgh");
    let [second, full] = both_put(&mut sink, b"defgh", b"f");
    Ok((
        [first, failed, second, full],
        sink.bytes() == b"abcde".as_slice(),
    ))
}

#[test]
fn mem_sink_takes_what_its_limits_leave(rt: HostRuntime) {
    let told = limited(rt.alloc()).expect(&rt, "memory");
    assert_eq!(rt; told, ([Ok(3), Err(Failed), Ok(2), Err(Failed)], true));
}

#[test]
fn sure_sink_counts_and_sums(rt: HostRuntime) {
    let mut sink = SureSink::new();
    let answers = both_put(&mut sink, b"abc", b"\xff");
    assert_eq!(rt;
        (answers, sink.count(), sink.sum()),
        ([Ok(3), Ok(1)], 4, 549)
    );
}
