// Which lines of a scene can record an item.
ghost use Rattle.std.specs.Prelude.{◌≡◌, ◌++◌, ◌≤◌, length, map, flat_map, IfOk};
ghost use Rattle.scene_text.specs.Seen.{block_seen, encoder_line_seen, frame_seen, resource_line_seen, scene_seen};
ghost use Rattle.scene_text.specs.Bounds.{IsBounded};
ghost use Rattle.item_lines.specs.Items as model;

use scene_text::{EncBlock, EncLine, ResLine, Scene, SceneFrame};
use std::alloc::{AllocError, Global};

/// The frame and the encoder of a line.
#[derive(Clone, Copy, Drop)]
pub struct Place {
    pub frame: u32,
    pub encoder: u8,
}

/// Whether a line records an item where it is accepted.
fn is_item_line(line: &EncLine) -> bool
    ensures { result ≡ model.is_item_line (encoder_line_seen line.now) }
{
    match line {
        EncLine::Submit { .. } => true,
        EncLine::Touch { .. } => true,
        EncLine::Blit { .. } => true,
        _ => false,
    }
}

/// The place of a line, where it can record an item.
fn line_place(frame: u32, encoder: u8, line: &EncLine) -> Option<Place>
    ensures { result ≡ model.line_place frame encoder (encoder_line_seen line.now) }
{
    if is_item_line(line) {
        Some(Place { frame, encoder })
    } else {
        None
    }
}

/// Puts of each line of the API thread that it records no item.
fn put_resources(places: &mut Vec<Option<Place>>, lines: &[ResLine]) -> Result<(), AllocError>
    ensures { IfOk result (λ _. places.new.items ≡ places.old.items ++ map model.no_place (map resource_line_seen lines.now)) }
{
    for _line in lines {
        places.push(None)?;
    }
    Ok(())
}

/// Puts the places of lines of an encoder.
fn put_lines(
    places: &mut Vec<Option<Place>>,
    frame: u32,
    encoder: u8,
    lines: &[EncLine],
) -> Result<(), AllocError>
    ensures { IfOk result (λ _. places.new.items ≡ places.old.items ++ map (model.line_place frame encoder) (map encoder_line_seen lines.now)) }
{
    for line in lines {
        places.push(line_place(frame, encoder, line))?;
    }
    Ok(())
}

/// Puts the places of a block's lines.
fn put_block(
    places: &mut Vec<Option<Place>>,
    frame: u32,
    block: &EncBlock,
) -> Result<(), AllocError>
    ensures { IfOk result (λ _. places.new.items ≡ places.old.items ++ model.block_places frame (block_seen block.now)) }
{
    put_lines(places, frame, block.encoder, block.lines.as_slice())
}

/// Puts the places of blocks' lines.
fn put_blocks(
    places: &mut Vec<Option<Place>>,
    frame: u32,
    blocks: &[EncBlock],
) -> Result<(), AllocError>
    ensures { IfOk result (λ _. places.new.items ≡ places.old.items ++ flat_map (model.block_places frame) (map block_seen blocks.now)) }
{
    for block in blocks {
        put_block(places, frame, block)?;
    }
    Ok(())
}

/// Puts the places of a frame's lines.
fn put_frame(
    places: &mut Vec<Option<Place>>,
    number: u32,
    frame: &SceneFrame,
) -> Result<(), AllocError>
    ensures { IfOk result (λ _. places.new.items ≡ places.old.items ++ model.frame_places number (frame_seen frame.now)) }
{
    put_resources(places, frame.before.as_slice())?;
    put_blocks(places, number, frame.blocks.as_slice())?;
    put_resources(places, frame.beside.as_slice())
}

/// The place of each line of a scene, in the order of its text; none of a line that can't record an item.
pub(crate) fn item_places(alloc: Global, scene: &Scene) -> Result<Vec<Option<Place>>, AllocError>
    requires { IsBounded (scene_seen scene.now) }
    ensures { IfOk result (λ places. places.items ≡ model.item_places (scene_seen scene.now)) }
{
    let mut places = Vec::new(alloc);
    let mut number: u32 = 0;
    for frame in scene.frames.as_slice() {
        put_frame(&mut places, number, frame)?;
        number += 1;
    }
    Ok(places)
}
