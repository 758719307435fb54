// A scene as text, as C plays it.
use crate::c_play::vgfx_play;
use c_playing::Played;
use std::test::Fail;

const BEFORE: Played = Played {
    pictures: 7,
    report: 7,
    line: 7,
    cause: 7,
};

fn told(played: &Played) -> (usize, usize, u32, u32) {
    (played.pictures, played.report, played.line, played.cause)
}

// Two frames of one pixel, the first red; a line of the second is dropped.
const TWO_FRAMES: &[u8] = b"scene 2
size 1 1
encoders 2
latency 2
frame
view 0 clear 1 ff0000ff 0 0
encoder 0
touch 0
encoder 1
touch 0
frame
view 0 clear 1 00ff00ff 0 0
encoder 1
touch 0
touch 512
done
";

const TWO_PICTURES: &[u8] = b"P6\n1 1\n255\n\xff\0\0P6\n1 1\n255\n\0\xff\0";

const TWO_LINES: &[u8] = b"frame 0 items 2 dropped 0\nframe 1 items 1 dropped 1\n";

#[test]
fn a_scene_is_played(rt: HostRuntime) -> Result<(), Fail> {
    let alloc = rt.alloc();
    let mut pictures = vec![in alloc; 9u8; 30]?;
    let mut report = vec![in alloc; 9u8; 53]?;
    let mut played = BEFORE;
    let status = vgfx_play(alloc, TWO_FRAMES, &mut pictures, &mut report, &mut played);
    assert_eq!(rt; status, 0);
    assert_eq!(rt; told(&played), (28, 52, 0, 0));
    assert!(rt; pictures.as_slice().starts_with(TWO_PICTURES));
    assert!(rt; pictures.as_slice().ends_with(&[9, 9]));
    assert!(rt; report.as_slice().starts_with(TWO_LINES));
    assert!(rt; report.as_slice().ends_with(&[9]));
    Ok(())
}
