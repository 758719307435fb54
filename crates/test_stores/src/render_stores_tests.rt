// Commands executed on stores.
use cmd_buffer::{CmdBuffer, CmdBytes, Command};
use gfx_words::{Kind, ProgramKind};
use render_stores::{RenderStores, execute_all};
use std::alloc::{AllocError, Global};
use std::test::Fail;

fn row(alloc: Global, commands: &[Command]) -> Result<CmdBytes, AllocError> {
    let mut row = CmdBuffer::new(alloc);
    for command in commands {
        row.write(*command)?;
    }
    row.finish()
}

fn payloads(alloc: Global) -> Result<Vec<Vec<u8>>, AllocError> {
    let mut payloads = Vec::new(alloc);
    payloads.push(vec![in alloc; 1u8; 4]?)?;
    payloads.push(vec![in alloc; 2u8; 2]?)?;
    Ok(payloads)
}

fn has_bytes(stores: &RenderStores, bytes: &[u8]) -> bool {
    match stores.buffers.bytes_of(Kind::IndexBuffer, 5) {
        Some(held) => held == bytes,
        None => false,
    }
}

fn has_texel(stores: &RenderStores, index: u16, texel: [u8; 4]) -> bool {
    match stores.textures.texels_of(index) {
        Some(texels) => texels.texels.as_slice().first() == Some(&texel),
        None => false,
    }
}

// An index buffer with its last two bytes replaced; a texture of one colour, whose index then is taken; a frame buffer
// with it; a program.
const MADE: [Command; 6] = [
    Command::CreateIndexBuffer {
        index: 5,
        payload: 0,
    },
    Command::UpdateBuffer {
        kind: 2,
        index: 5,
        offset: 2,
        payload: 1,
    },
    Command::CreateTexture {
        index: 7,
        width: 2,
        height: 1,
        format: 0,
        blit_dst: 0,
        source: 0,
        value: 0x04030201,
    },
    Command::CreateTexture {
        index: 7,
        width: 2,
        height: 1,
        format: 0,
        blit_dst: 0,
        source: 0,
        value: 0,
    },
    Command::CreateFrameBuffer {
        index: 0,
        color: 7,
        depth: 65_535,
    },
    Command::CreateProgram { index: 9, kind: 2 },
];

const ENDED: [Command; 3] = [
    Command::Destroy { kind: 5, index: 9 },
    Command::Destroy { kind: 4, index: 0 },
    Command::Destroy { kind: 3, index: 7 },
];

// Commands that are executed.
fn executed(
    alloc: Global,
    stores: &mut RenderStores,
    payloads: &[Vec<u8>],
    commands: &[Command],
) -> Result<(), AllocError> {
    let row = row(alloc, commands)?;
    execute_all(alloc, stores, payloads, &row)
}

// Whether the buffer has its bytes, the texture its texel, and there is the target; and the program.
fn made(stores: &RenderStores) -> ([bool; 3], Option<ProgramKind>) {
    let buffer = has_bytes(stores, &[1, 1, 2, 2]);
    let texture = has_texel(stores, 7, [1, 2, 3, 4]);
    let target = stores.textures.has_target(0);
    ([buffer, texture, target], stores.programs.get(9))
}

// Whether the buffer has its bytes, and there is the texture; and the program.
fn left(stores: &RenderStores) -> ([bool; 2], Option<ProgramKind>) {
    let buffer = has_bytes(stores, &[1, 1, 2, 2]);
    (
        [buffer, stores.textures.has_texture(7)],
        stores.programs.get(9),
    )
}

// What is there when things were made, and what is left when they were destroyed.
type Told = (
    ([bool; 3], Option<ProgramKind>),
    ([bool; 2], Option<ProgramKind>),
);

fn made_and_left(alloc: Global, stores: &mut RenderStores) -> Result<Told, AllocError> {
    let payloads = payloads(alloc)?;
    executed(alloc, stores, &payloads, &MADE)?;
    let made = made(stores);
    executed(alloc, stores, &payloads, &ENDED)?;
    Ok((made, left(stores)))
}

#[test]
fn things_made_and_destroyed(rt: HostRuntime) -> Result<(), Fail> {
    let mut stores = RenderStores::new(rt.alloc(), 2, 2)?;
    let told = made_and_left(rt.alloc(), &mut stores);
    drop(stores);
    let (made, left) = told?;
    assert!(rt; made == ([true; 3], Some(ProgramKind::Texture)));
    assert!(rt; left == ([true, false], None));
    Ok(())
}
