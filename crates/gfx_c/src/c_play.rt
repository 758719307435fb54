// Scenes as text for C.
ghost use Rattle.std.specs.Prelude.{◌≡◌};
ghost use Rattle.c_playing.specs.Plays.{Plays, end_number, told_of};
ghost use Rattle.c_playing.specs.declared.playing.PlayEnd.{PlayEnd as End};

use c_playing::{PlayEnd, Played, play_text};
use std::alloc::Global;

const OUT_OF_MEMORY: u32 = 17;

const TOO_SMALL: u32 = 103;

const NO_SCENE: u32 = 106;

const TOO_LONG: u32 = 107;

// Tells C how a play ended.
fn tell(end: PlayEnd, played: &mut Played) -> u32
    ensures status { result ≡ end_number end }
    ensures told { played.new ≡ told_of end played.old }
{
    match end {
        PlayEnd::Done { pictures, report } => {
            *played = sizes(pictures, report);
            0
        }
        PlayEnd::TooSmall { pictures, report } => {
            *played = sizes(pictures, report);
            TOO_SMALL
        }
        PlayEnd::NoScene { line, cause } => {
            *played = Played {
                pictures: 0,
                report: 0,
                line,
                cause: u32::from(cause),
            };
            NO_SCENE
        }
        PlayEnd::TooLong => TOO_LONG,
        PlayEnd::OutOfMemory => OUT_OF_MEMORY,
    }
}

fn sizes(pictures: usize, report: usize) -> Played
    ensures { result ≡ record { pictures = pictures; report = report; line = 0; cause = 0 } }
{
    Played {
        pictures,
        report,
        line: 0,
        cause: 0,
    }
}

/// Plays a scene's text on the calling thread, as a run of the program `gfx_play play` may, and writes its pictures and its report.
/// Answers 0, 17, 103, 106 or 107; lengths are in bytes; wherever it is not 0 the buffers are as before.
#[unsafe(no_mangle)]
pub extern "C" fn vgfx_play(
    alloc: Global,
    text: &[u8],
    pictures: &mut [u8],
    report: &mut [u8],
    played: &mut Played,
) -> u32
    ensures { (e : End) × (result ≡ end_number e) × (played.new ≡ told_of e played.old) × Plays e text.now pictures.old pictures.new report.old report.new }
{
    let end = play_text(alloc, text, pictures, report);
    tell(end, played)
}
