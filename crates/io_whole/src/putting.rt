// Writes a text to a sink.
ghost use Rattle.std.specs.Prelude.{◌≡◌, ◌≤◌, ◌<◌, ◌%◌, ◌^◌, length, sum, IfSome, OnOk, OnErr};
ghost use Rattle.io_edge.specs.Edge.{with_back, counted, Rose};
ghost use Rattle.io_whole.specs.Whole.{HasFront};

use io_edge::{Failed, Sink};

/// Puts the text until all of it is taken.
///
/// # Errors
///
/// `Failed` only where the sink's count of faults rose; a front of the text was put.
pub fn put_all<P: Sink>(sink: &mut P, text: &[u8]) -> Result<(), Failed>
    ensures whole { OnOk result (P.held sink.new ≡ with_back (P.held sink.old) text.now) }
    ensures tally { OnOk result (0 < length text.now → P.tally sink.new ≡ counted (P.tally sink.old) text.now) }
    ensures front { HasFront (P.held sink.old) text.now (P.held sink.new) }
    ensures failed { OnErr result (Rose (P.faults sink.old) (P.faults sink.new)) }
    ensures sure { P.sure sink.new ≡ P.sure sink.old }
    ensures no_fewer { P.faults sink.old ≤ P.faults sink.new }
{
    let mut at = 0;
    while at < text.len() {
        let n = sink.put(&text[at..])?;
        at += n;
    }
    Ok(())
}

/// The same of a text whose sum modulo 2^32 is told, where it is: a sink that keeps a sum adds it, if it takes the text at once.
///
/// # Errors
///
/// As those of `put_all`.
pub fn put_told<P: Sink>(sink: &mut P, text: &[u8], told: Option<u32>) -> Result<(), Failed>
    requires { IfSome told (λ total. total ≡ sum text.now % 2 ^ 32) }
    ensures whole { OnOk result (P.held sink.new ≡ with_back (P.held sink.old) text.now) }
    ensures tally { OnOk result (0 < length text.now → P.tally sink.new ≡ counted (P.tally sink.old) text.now) }
    ensures front { HasFront (P.held sink.old) text.now (P.held sink.new) }
    ensures failed { OnErr result (Rose (P.faults sink.old) (P.faults sink.new)) }
    ensures sure { P.sure sink.new ≡ P.sure sink.old }
    ensures no_fewer { P.faults sink.old ≤ P.faults sink.new }
{
    match told {
        Some(total) if !text.is_empty() => {
            let n = sink.put_summed(text, total)?;
            if n == text.len() {
                return Ok(());
            }
            put_all(sink, &text[n..])
        }
        _ => put_all(sink, text),
    }
}
