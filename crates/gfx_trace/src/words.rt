// The words of the command line.
ghost use Rattle.std.specs.Prelude.{◌≡◌, ◌∷◌, [], map, option_map, string_bytes};
ghost use Rattle.gfx_trace.specs.Jobs.{job_seen};
ghost use Rattle.gfx_trace.specs.Words.{blame_asked, frame_asked, job_of, number_of, pixel_asked, steps_asked, target_asked};

use crate::numbers::number_of;

/// A pixel of a frame: the frame's number, the column from the left and the row from the top, each from 0.
#[derive(Clone, Copy, Debug, PartialEq, Eq, Drop)]
pub struct Place {
    pub frame: u32,
    pub x: u32,
    pub y: u32,
}

/// A pixel of a frame of the frame buffer that a name stands for in it.
#[derive(Clone, Copy, Debug, PartialEq, Eq, Drop)]
pub struct NamedPlace<'w> {
    pub place: Place,
    pub name: &'w [u8],
}

/// What the words ask for.
#[derive(Clone, Copy, Debug, PartialEq, Eq, Drop)]
pub enum Job<'w> {
    /// What a pixel goes through in a frame.
    Pixel(Place),
    /// What a pixel of the frame buffer of a name goes through in a frame.
    Target(NamedPlace<'w>),
    /// The pictures of a frame's steps.
    Steps { frame: u32 },
    /// To which deed of a frame each pixel is due.
    Blame { frame: u32 },
}

/// The history of a pixel, where the three words are numbers.
fn pixel_job<'w>(frame: &str, x: &str, y: &str) -> Option<Job<'w>>
    ensures { option_map job_seen result ≡ pixel_asked (number_of frame.now) (number_of x.now) (number_of y.now) }
{
    let frame = number_of(frame.as_bytes())?;
    let x = number_of(x.as_bytes())?;
    let y = number_of(y.as_bytes())?;
    Some(Job::Pixel(Place { frame, x, y }))
}

/// The history of a pixel of the frame buffer of a name, where the three words are numbers.
fn target_job<'w>(frame: &str, x: &str, y: &str, name: &'w str) -> Option<Job<'w>>
    ensures { option_map job_seen result ≡ target_asked (number_of frame.now) (number_of x.now) (number_of y.now) name.now }
{
    let frame = number_of(frame.as_bytes())?;
    let x = number_of(x.as_bytes())?;
    let y = number_of(y.as_bytes())?;
    Some(Job::Target(NamedPlace {
        place: Place { frame, x, y },
        name: name.as_bytes(),
    }))
}

/// The steps of a frame, where the word is a number.
fn steps_job<'w>(frame: &str) -> Option<Job<'w>>
    ensures { option_map job_seen result ≡ steps_asked (number_of frame.now) }
{
    let frame = number_of(frame.as_bytes())?;
    Some(Job::Steps { frame })
}

/// To which deed of a frame each pixel is due, where the word is a number.
fn blame_job<'w>(frame: &str) -> Option<Job<'w>>
    ensures { option_map job_seen result ≡ blame_asked (number_of frame.now) }
{
    let frame = number_of(frame.as_bytes())?;
    Some(Job::Blame { frame })
}

/// What two words ask for.
fn frame_job<'w>(word: &str, frame: &str) -> Option<Job<'w>>
    ensures { option_map job_seen result ≡ frame_asked word.now (number_of frame.now) }
{
    if word == "steps" {
        return steps_job(frame);
    }
    if word == "blame" {
        return blame_job(frame);
    }
    None
}

/// What four words and a name behind `--target` ask for.
fn named_job<'w>(
    word: &str,
    frame: &str,
    x: &str,
    y: &str,
    option: &str,
    name: &'w str,
) -> Option<Job<'w>>
    ensures { option_map job_seen result ≡ job_of (word.now ∷ frame.now ∷ x.now ∷ y.now ∷ option.now ∷ name.now ∷ []) }
{
    if word != "pixel" {
        return None;
    }
    if option != "--target" {
        return None;
    }
    target_job(frame, x, y, name)
}

/// What four words and no option ask for.
fn plain_job<'w>(word: &str, frame: &str, x: &str, y: &str) -> Option<Job<'w>>
    ensures { option_map job_seen result ≡ job_of (word.now ∷ frame.now ∷ x.now ∷ y.now ∷ []) }
{
    if word != "pixel" {
        return None;
    }
    pixel_job(frame, x, y)
}

/// What the words ask for: `pixel F X Y`, `pixel F X Y --target NAME`, `steps F` or `blame F`.
pub(crate) fn job_of(words: &[String]) -> Option<Job<'_>>
    ensures { option_map job_seen result ≡ job_of (map string_bytes words.now) }
{
    match words {
        [word, frame] => frame_job(word.as_str(), frame.as_str()),
        [word, frame, x, y] => plain_job(word.as_str(), frame.as_str(), x.as_str(), y.as_str()),
        [word, frame, x, y, option, name] => named_job(
            word.as_str(),
            frame.as_str(),
            x.as_str(),
            y.as_str(),
            option.as_str(),
            name.as_str(),
        ),
        _ => None,
    }
}
