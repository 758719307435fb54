// The frames of two streams.
ghost use Rattle.std.specs.Prelude.{◌≡◌, List, length, map};
ghost use Rattle.std.specs.List.{AllByRecursion};
ghost use Rattle.picture_diff.specs.Picture as model;
ghost use Rattle.picture_diff.specs.Picture.{AreTextsOf, IsPicture};
ghost use Rattle.picture_diff.specs.Frames.{are_halves, compared, have_other_sides, judged};
ghost use Rattle.picture_diff.specs.Told.{Gives, Told, picture_seen};

use crate::comparing::difference;
use crate::difference::Difference;
use crate::fault::PictureFault;
use crate::picture::Picture;
use crate::reading::read_pictures;
use std::alloc::Global;

/// Whether so many pictures are two streams of equally many, at least one, and of as many as were asked for.
fn are_halves(asked: Option<u32>, pictures: usize) -> bool
    ensures { result ≡ are_halves asked pictures }
{
    let is_asked = match asked {
        Some(asked) => asked as usize == pictures / 2,
        None => true,
    };
    pictures > 0 && pictures % 2 == 0 && is_asked
}

fn have_other_sides(one: &Picture<'_>, other: &Picture<'_>) -> bool
    ensures { result ≡ have_other_sides (picture_seen one.now) (picture_seen other.now) }
{
    !(one.width == other.width && one.height == other.height)
}

/// The differences of two streams, frame by frame.
fn compare(
    alloc: Global,
    ones: &[Picture<'_>],
    others: &[Picture<'_>],
    near: u8,
) -> Result<Vec<Difference>, PictureFault>
    requires long { length ones.now ≡ length others.now }
    requires ones { AllByRecursion IsPicture (map picture_seen ones.now) }
    requires others { AllByRecursion IsPicture (map picture_seen others.now) }
    ensures { Gives (λ v. v.items) result (compared near 0 (map picture_seen ones.now) (map picture_seen others.now)) }
{
    let mut found = Vec::new(alloc);
    for frame in 0..ones.len() {
        let (one, other) = (&ones[frame], &others[frame]);
        if have_other_sides(one, other) {
            return Err(PictureFault::Sides { frame });
        }
        found.push(difference(one, other, near))?;
    }
    Ok(found)
}

/// What is told of pictures as two streams.
fn judge(
    alloc: Global,
    pictures: &[Picture<'_>],
    near: u8,
    asked: Option<u32>,
) -> Result<Vec<Difference>, PictureFault>
    requires { AllByRecursion IsPicture (map picture_seen pictures.now) }
    ensures { Gives (λ v. v.items) result (judged near asked (map picture_seen pictures.now)) }
{
    if !are_halves(asked, pictures.len()) {
        return Err(PictureFault::Count {
            pictures: pictures.len(),
        });
    }
    let (ones, others) = pictures.split_at(pictures.len() / 2);
    let found = compare(alloc, ones, others, near)?;
    Ok(found)
}

/// What is told of bytes as two streams.
fn tell(
    alloc: Global,
    bytes: &[u8],
    near: u8,
    asked: Option<u32>,
) -> Result<Vec<Difference>, PictureFault>
    ensures { Told near asked bytes.now (λ v. v.items) result }
{
    let pictures = read_pictures(alloc, bytes)?;
    let found = judge(alloc, &pictures, near, asked)?;
    Ok(found)
}

/// How the frames of two streams of pictures differ, which stand behind each other: the first half of the pictures is the one stream, the
/// second half the other. A difference of up to `near` in a channel is let pass. `asked` is how many pictures each stream has to have.
///
/// # Errors
///
/// `NoPicture` exactly where the bytes are no pictures, with the first place where none begins. `Count` exactly where they are pictures,
/// but none, an odd number, or not twice as many as were asked for. `Sides` exactly where they are two streams of which a frame's pictures
/// have other sides, with the first such frame. `OutOfMemory` for want of memory alone.
pub fn differences(
    alloc: Global,
    bytes: &[u8],
    near: u8,
    asked: Option<u32>,
) -> Result<Vec<Difference>, PictureFault>
    // What is told of the pictures that the bytes are, or where they are none.
    ensures told { Told near asked bytes.now (λ v. v.items) result }
    // Of the texts of some pictures just what the definition tells, unless memory runs out.
    ensures only { (ps : List model.Picture) → AreTextsOf bytes.now ps → Gives (λ v. v.items) result (judged near asked ps) }
{
    tell(alloc, bytes, near, asked)
}
