use frame_capture::{decode, encode};
use std::test::*;

const CAPTURE: &[u8] = b"GFX1\x02\0\x02\0\x01\0\0\0\0\0\0\0\x04\xff\0\0";

const TEXT: &[u8] = b"P6\n2 2\n255\n\xff\0\0\xff\0\0\xff\0\0\xff\0\0";

#[test]
fn one_picture_of_one_colour(rt: HostRuntime) -> Result<(), Fail> {
    let capture = encode(rt.alloc(), 2, 2, TEXT)
        .ok()
        .ok_or("there is memory")?;
    assert_eq!(rt; capture.as_slice(), CAPTURE);
    let texts = decode(rt.alloc(), CAPTURE).ok().ok_or("it is a capture")?;
    assert_eq!(rt; texts.as_slice(), TEXT);
    Ok(())
}
