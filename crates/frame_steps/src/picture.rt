// The text of a picture, in the P6 format of Netpbm.
ghost use Rattle.std.specs.Prelude.{◌≡◌, ◌++◌, take, flat_map, IfOk};
ghost use Rattle.scene_model.specs.Output.{picture_header, picture_text};
ghost use Rattle.fix_math.specs.Seen.{texels_seen};

use fix_math::Texels;
use std::alloc::{AllocError, Global};

/// Puts red, green and blue of each colour behind a text.
fn put_colors(text: &mut Vec<u8>, colors: &[[u8; 4]]) -> Result<(), AllocError>
    ensures { IfOk result (λ _. text.new.items ≡ text.old.items ++ flat_map (take 3) colors.now) }
{
    for color in colors {
        let [red, green, blue, _] = *color;
        text.extend_from_slice(&[red, green, blue])?;
    }
    Ok(())
}

/// Writes the text of a picture in place of what the text was; its room is kept. `Err` only for want of memory.
pub fn write_picture(alloc: Global, text: &mut Vec<u8>, picture: &Texels) -> Result<(), AllocError>
    ensures { IfOk result (λ _. text.new.items ≡ picture_text (texels_seen picture.now)) }
{
    let (width, height) = (picture.width, picture.height);
    let header = format!(in alloc; "P6\n{width} {height}\n255\n")?;
    text.clear();
    text.extend_from_slice(header.as_bytes())?;
    put_colors(text, picture.texels.as_slice())
}
