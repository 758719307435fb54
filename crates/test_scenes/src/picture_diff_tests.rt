// Both calls on two pictures of which one pixel differs. The line is worked by hand.
use picture_diff::{differences, lines_of};

#[test]
fn one_pixel_differs(rt: HostRuntime) {
    let bytes = b"P6\n2 1\n255\n\x07\x07\x07\x01\x02\x03P6\n2 1\n255\n\x07\x07\x07\x01\x02\x09";
    let found = differences(rt.alloc(), bytes, 0, Some(1)).expect(&rt, "pictures");
    let lines = lines_of(rt.alloc(), &found).expect(&rt, "memory");
    assert_eq!(rt;
        lines.as_slice(),
        b"frame 0 pixels 2 differ 1 most 6 first 1 0 within 1 0 1 0\n".as_slice()
    );
}
