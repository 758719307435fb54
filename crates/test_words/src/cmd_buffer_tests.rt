// Command bytes from outside, and every command written and read back.
use cmd_buffer::{CmdBuffer, CmdBytes, CmdReader, Command, MOST_COMMAND_BYTES};
use std::alloc::{AllocError, Global};
use std::test::Fail;
use vertex_layout::{Attr, AttrType, LayoutBuilder, VertexLayout};

fn bytes_of(alloc: Global, commands: &[Command]) -> Result<CmdBytes, AllocError> {
    let mut buffer = CmdBuffer::new(alloc);
    for command in commands {
        buffer.write(*command)?;
    }
    buffer.finish()
}

fn halves() -> Option<VertexLayout> {
    let mut builder = LayoutBuilder::new();
    builder.add(Attr::Position, AttrType::I16, 2);
    builder.add(Attr::Color0, AttrType::U8, 3);
    match builder.end() {
        Ok(it) => Some(it),
        Err(_) => None,
    }
}

// The index, the stride and the colour's offset of a command that creates a layout.
fn layout_of(command: Option<Command>) -> Option<(u16, u8, u8)> {
    let command = command?;
    match command {
        Command::CreateLayout { index, layout } => Some((
            index,
            layout.stride(),
            layout.offset_of(Attr::Color0)?,
        )),
        _ => None,
    }
}

// Whether the bytes give these commands, and then none, twice.
fn gives(bytes: &CmdBytes, commands: &[Command]) -> bool {
    let mut reader = CmdReader::new(bytes);
    for command in commands {
        if reader.next() != Some(*command) {
            return false;
        }
    }
    reader.next().is_none() && reader.next().is_none()
}

// Whether a program and a destroy are written so, and are read again.
fn two_written(alloc: Global) -> Result<[bool; 2], AllocError> {
    let commands = [
        Command::CreateProgram { index: 3, kind: 2 },
        Command::Destroy { kind: 5, index: 3 },
    ];
    let bytes = bytes_of(alloc, &commands)?;
    let written = bytes.as_slice() == b"\x06\x03\x00\x02\x0a\x05\x03\x00\x00".as_slice();
    Ok([written, gives(&bytes, &commands)])
}

#[test]
fn program_and_destroy(rt: HostRuntime) -> Result<(), Fail> {
    assert_eq!(rt; two_written(rt.alloc())?, [true; 2]);
    Ok(())
}

const TEXTURE: Command = Command::CreateTexture {
    index: 258,
    width: 1,
    height: 2,
    format: 0,
    blit_dst: 1,
    source: 0,
    value: 0xff00_00ff,
};

// A layout, where there is one, and a texture.
fn layout_and_texture(alloc: Global) -> Result<CmdBytes, AllocError> {
    let mut buffer = CmdBuffer::new(alloc);
    if let Some(layout) = halves() {
        buffer.write(Command::CreateLayout { index: 1, layout })?;
    }
    buffer.write(TEXTURE)?;
    buffer.finish()
}

// What the first command that is read tells of its layout, and whether the texture is read behind it, and then nothing.
fn layout_read(bytes: &CmdBytes) -> (Option<(u16, u8, u8)>, bool) {
    let mut reader = CmdReader::new(bytes);
    let layout = layout_of(reader.next());
    let texture = reader.next() == Some(TEXTURE);
    (layout, texture && reader.next().is_none())
}

#[test]
fn layouts_and_textures(rt: HostRuntime) -> Result<(), Fail> {
    let bytes = layout_and_texture(rt.alloc())?;
    let written = bytes.as_slice()
        == b"\x01\x01\x00\x02\x00\x01\x02\x00\x03\x00\x03\x04\x07\x04\x02\x01\x01\x00\x02\x00\x00\x01\x00\xff\x00\x00\xff\x00".as_slice();
    let read = layout_read(&bytes);
    assert!(rt; written && read == (Some((1, 7, 4)), true));
    Ok(())
}

const OTHERS: [Command; 6] = [
    Command::CreateVertexBuffer {
        index: 1023,
        layout: 63,
        payload: 0x0102_0304,
    },
    Command::CreateIndexBuffer {
        index: 512,
        payload: 7,
    },
    Command::CreateFrameBuffer {
        index: 127,
        color: 1000,
        depth: 65535,
    },
    Command::CreateUniform {
        index: 255,
        serial: 4_294_967_295,
        kind: 1,
        payload: 9,
    },
    Command::UpdateBuffer {
        kind: 2,
        index: 3,
        offset: 524_287,
        payload: 1,
    },
    Command::UpdateTexture {
        index: 4,
        x: 1,
        y: 2,
        w: 3,
        h: 2048,
        payload: 5,
    },
];

#[test]
fn each_other_command_comes_again(rt: HostRuntime) -> Result<(), Fail> {
    let bytes = bytes_of(rt.alloc(), &OTHERS)?;
    assert!(rt; gives(&bytes, &OTHERS));
    Ok(())
}

// Reserved room for two commands, whether both are accepted, and how many bytes they have.
fn reserved(alloc: Global) -> Result<(bool, bool, usize), AllocError> {
    let mut buffer = CmdBuffer::new(alloc);
    buffer.reserve(9)?;
    let program = buffer
        .write(Command::CreateProgram { index: 3, kind: 2 })
        .is_ok();
    let destroy = buffer.write(Command::Destroy { kind: 5, index: 3 }).is_ok();
    let bytes = buffer.finish()?;
    Ok((program, destroy, bytes.as_slice().len()))
}

#[test]
fn reserved_bytes_are_enough(rt: HostRuntime) -> Result<(), Fail> {
    assert_eq!(rt; reserved(rt.alloc())?, (true, true, 9));
    Ok(())
}

// Whether no command is longer than the longest, and how many bytes they have in all, and one more.
fn sizes(commands: &[Command]) -> (bool, usize) {
    let mut few = true;
    let mut sum: usize = 1;
    for command in commands {
        few = few && command.size() <= MOST_COMMAND_BYTES;
        sum = sum.saturating_add(command.size() as usize);
    }
    (few, sum)
}

#[test]
fn sizes_of_commands(rt: HostRuntime) -> Result<(), Fail> {
    let Some(layout) = halves() else {
        return Ok(());
    };
    let commands = [
        Command::CreateLayout { index: 1, layout },
        Command::UpdateTexture {
            index: 1,
            x: 2,
            y: 3,
            w: 4,
            h: 5,
            payload: 6,
        },
        Command::CreateProgram { index: 3, kind: 2 },
    ];
    let (few, sum) = sizes(&commands);
    let length = bytes_of(rt.alloc(), &commands)?.as_slice().len();
    assert_eq!(rt; (few, length, sum), (true, 33, 33));
    Ok(())
}
