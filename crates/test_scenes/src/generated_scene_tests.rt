// What the scene is as text, and that its text is read back.
use generated_scene::make_scene;
use scene_text::{Scene, SceneFault, read, write};
use std::alloc::Global;
use std::test::Fail;

// The first lines, up to the first draw's vertices.
static FRONT: &[u8] = b"scene 1
size 640 480
encoders 4
room 8191 262144 4096
frame
layout q position:fixed:3 color0:u8:4
program c color
view 0 clear 7 000000ff 16777215 0
encoder 0
state 274877906975
tvertices q 0000ffff0000010000000000000000ffcc0cffff0000010000000000000000ff";

fn read_small(alloc: Global, text: &[u8]) -> Result<Scene, SceneFault> {
    if text.len() > 1_000_000 {
        return Err(SceneFault::At { line: 0, cause: 0 });
    }
    read(alloc, text)
}

fn count_of(text: &[u8], byte: u8) -> usize {
    text.iter().filter(|b| **b == byte).count()
}

#[test]
fn as_text(rt: HostRuntime) -> Result<(), Fail> {
    let scene = make_scene(&rt, rt.alloc(), 2)?;
    let text = write(rt.alloc(), &scene)?;
    assert!(rt; text.starts_with(FRONT));
    assert_eq!(rt; count_of(&text, b'\n'), 7218);
    let again = read_small(rt.alloc(), &text).ok().ok_or("text")?;
    let second = write(rt.alloc(), &again)?;
    assert!(rt; text.as_slice() == second.as_slice());
    Ok(())
}
