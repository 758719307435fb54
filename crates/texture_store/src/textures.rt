// Textures by index.
ghost use Rattle.std.specs.Prelude.{◌≡◌, ◌≢◌, ◌+◌, ◌*◌, ◌≤◌, length, true, None, option_map, IfSome, IsOk, IsSome, MatchOption, MatchResult, is_some};
ghost use Rattle.std.specs.Option.{option_and_then};
ghost use Rattle.gfx_model.specs.World.{with_texels_in};
ghost use Rattle.gfx_words.specs.Seen.{format_seen, IsFirstRefusal};
ghost use Rattle.gfx_model.specs.Resources.{first_refusal, same_sides as same_sides_of};
ghost use Rattle.fix_math.specs.Seen.{rect_seen, texels_seen};
ghost use Rattle.store_model.specs.Slots.{at, changed_at};
ghost use Rattle.store_model.specs.Textures.{slot_texels, texels_in_row, attached_texels, attached_out, attached_back, IsOut, with_depth as with_depth_of, slot_out, slot_with, with_texels_here, copied_region, can_attach_at, update_refusals, sides_at as sides_of};
ghost use Rattle.texture_store.specs.Seen.{region_seen, target_seen, sides_seen};
ghost use Rattle.texture_store.specs.Cut.{writes_nothing};

use crate::source::BlitBox;
use crate::texture::Texture;
use fix_math::{Rect, Texels};
use gfx_words::{Format, Refusal};
use slot_row::Row;
use std::alloc::{AllocError, Global};

/// The texels of a texture. None exactly where it is not there or they are taken out.
pub(crate) fn texels_at(textures: &Row<Texture>, index: u16) -> Option<&Texels>
    ensures { option_map (λ t. texels_seen t.now) result ≡ texels_in_row textures.now index }
{
    match textures.get(index) {
        Some(texture) => texture.texels(),
        None => None,
    }
}

/// The sides of a texture of a format. None exactly where there is none.
pub(crate) fn sides_at(textures: &Row<Texture>, index: u16, format: Format) -> Option<(u16, u16)>
    ensures { result ≡ sides_of (format_seen format) textures.now index }
{
    match textures.get(index) {
        Some(texture) => texture.sides(format),
        None => None,
    }
}

/// Takes the texels of a texture out.
pub(crate) fn take_texels(textures: &mut Row<Texture>, index: u16) -> Option<Texels>
    ensures taken { option_map texels_seen result ≡ texels_in_row textures.old index }
    ensures left { textures.new ≡ changed_at slot_out index textures.old }
{
    match textures.take(index) {
        Some(mut texture) => {
            let texels = texture.take();
            textures.put(index, texture);
            texels
        }
        None => None,
    }
}

/// Puts texels back into a texture.
pub(crate) fn put_texels(textures: &mut Row<Texture>, index: u16, texels: Texels)
    ensures { textures.new ≡ changed_at (slot_with (texels_seen texels)) index textures.old }
{
    if let Some(mut texture) = textures.take(index) {
        texture.put(texels);
        textures.put(index, texture);
    }
}

/// Replaces the texels of a rectangle that passes no side.
pub(crate) fn update_at(textures: &mut Row<Texture>, index: u16, rect: &Rect, bytes: &[u8])
    requires fits { IfSome (texels_in_row textures.old index) (λ t. (rect.now.x + rect.now.w ≤ t.width) × (rect.now.y + rect.now.h ≤ t.height)) }
    requires enough { length bytes.now ≡ 4 * (rect.now.w * rect.now.h) }
    ensures { textures.new ≡ changed_at (with_texels_here (with_texels_in (rect_seen rect.now) bytes.now)) index textures.old }
{
    if let Some(mut texture) = textures.take(index) {
        texture.update(rect, bytes);
        textures.put(index, texture);
    }
}

/// Copies a region between two textures.
pub(crate) fn copy_apart(textures: &mut Row<Texture>, copy: &BlitBox)
    requires { copy.now.src ≢ copy.now.dst }
    ensures { MatchOption (texels_in_row textures.old copy.now.src) (textures.new ≡ textures.old) (λ source. textures.new ≡ changed_at (with_texels_here (copied_region (region_seen copy.now) source)) copy.now.dst textures.old) }
{
    if let Some(mut texture) = textures.take(copy.dst) {
        copy_into(textures, &mut texture, copy);
        textures.put(copy.dst, texture);
    }
}

fn copy_into(textures: &Row<Texture>, texture: &mut Texture, copy: &BlitBox)
    ensures { MatchOption (texels_in_row textures.now copy.now.src) (texture.new ≡ texture.old) (λ source. texture.new ≡ with_texels_here (copied_region (region_seen copy.now) source) texture.old) }
{
    if let Some(source) = texels_at(textures, copy.src) {
        texture.copy_from(source, copy);
    }
}

/// Copies a region of a texture over itself; the texels are read as they were.
pub(crate) fn copy_over(
    textures: &mut Row<Texture>,
    alloc: Global,
    copy: &BlitBox,
) -> Result<(), AllocError>
    requires { copy.now.src ≡ copy.now.dst }
    ensures copied { MatchOption (texels_in_row textures.old copy.now.src) (textures.new ≡ textures.old) (λ source.
        MatchResult result (λ _. textures.new ≡ changed_at (with_texels_here (copied_region (region_seen copy.now) source)) copy.now.dst textures.old) (λ _. textures.new ≡ textures.old)) }
    ensures nothing { writes_nothing (region_seen copy.now) (texels_in_row textures.old copy.now.src) ≡ true → IsOk result }
{
    let done = copy_itself(textures, alloc, copy);
    done
}

fn copy_itself(textures: &mut Row<Texture>, alloc: Global, copy: &BlitBox) -> Result<(), AllocError>
    ensures copied { MatchResult result (λ _. textures.new ≡ changed_at (with_texels_here (λ t. copied_region (region_seen copy.now) t t)) copy.now.dst textures.old) (λ _. textures.new ≡ textures.old) }
    ensures nothing { writes_nothing (region_seen copy.now) (texels_in_row textures.old copy.now.dst) ≡ true → IsOk result }
{
    match textures.take(copy.dst) {
        Some(mut texture) => {
            let done = texture.copy_within(alloc, copy);
            textures.put(copy.dst, texture);
            done
        }
        None => Ok(()),
    }
}

/// Whether textures fit a frame buffer.
pub(crate) fn can_attach(textures: &Row<Texture>, color: u16, depth: Option<u16>) -> bool
    ensures { result ≡ can_attach_at textures.now color depth }
{
    let sides = sides_at(textures, color, Format::Rgba8);
    match depth {
        None => sides.is_some(),
        Some(depth) => same_sides(sides, sides_at(textures, depth, Format::D24S8)),
    }
}

fn same_sides(a: Option<(u16, u16)>, b: Option<(u16, u16)>) -> bool
    ensures { result ≡ same_sides_of a b }
{
    match (a, b) {
        (Some(a), Some(b)) => a.0 == b.0 && a.1 == b.1,
        _ => false,
    }
}

/// `BadRange` exactly where a rectangle passes a side; then `BadSize` exactly where bytes are not four per texel.
pub(crate) fn check_rect(texels: &Texels, rect: &Rect, bytes: &[u8]) -> Result<(), Refusal>
    ensures { let refusal = first_refusal (update_refusals (texels_seen texels.now) (rect_seen rect.now) bytes.now) in
        MatchResult result (λ _. refusal ≡ None) (λ r. IsFirstRefusal refusal r) }
{
    if rect.x as u32 + rect.w as u32 > texels.width as u32 {
        return Err(Refusal::BadRange);
    }
    if rect.y as u32 + rect.h as u32 > texels.height as u32 {
        return Err(Refusal::BadRange);
    }
    if bytes.len() as u64 != 4 * (rect.w as u64 * rect.h as u64) {
        return Err(Refusal::BadSize);
    }
    Ok(())
}

/// Whether the texels of a frame buffer's textures are here.
pub(crate) fn are_here(textures: &Row<Texture>, color: u16, depth: Option<u16>) -> bool
    ensures { result ≡ is_some (attached_texels textures.now color depth) }
{
    let color = texels_at(textures, color).is_some();
    match depth {
        None => color,
        Some(depth) => color && texels_at(textures, depth).is_some(),
    }
}

/// Takes out the texels of a frame buffer's textures, all of which are here.
pub(crate) fn take_attached(
    textures: &mut Row<Texture>,
    color: u16,
    depth: Option<u16>,
) -> Option<(Texels, Option<Texels>)>
    requires here { IsSome (attached_texels textures.old color depth) }
    requires fits { can_attach_at textures.old color depth ≡ true }
    ensures taken { option_map target_seen result ≡ attached_texels textures.old color depth }
    ensures left { textures.new ≡ attached_out (record { color = color; depth = depth }) textures.old }
    ensures sides { IfSome result (λ p. IfSome p.1 (λ depth. (depth.width ≡ p.0.width) × (depth.height ≡ p.0.height))) }
    ensures back { IfSome result (λ p. IsOut textures.new (record { color = color; depth = depth }) (sides_seen p.0) (option_map sides_seen p.1)) }
{
    let taken = take_both(textures, color, depth);
    taken
}

fn take_both(
    textures: &mut Row<Texture>,
    color: u16,
    depth: Option<u16>,
) -> Option<(Texels, Option<Texels>)>
    requires here { IsSome (attached_texels textures.old color depth) }
    requires apart { IfSome depth (λ d. d ≢ color) }
    ensures taken { option_map target_seen result ≡ attached_texels textures.old color depth }
    ensures left { textures.new ≡ attached_out (record { color = color; depth = depth }) textures.old }
{
    let color = take_texels(textures, color);
    match depth {
        None => with_none(color),
        Some(depth) => with_depth(color, take_texels(textures, depth)),
    }
}

fn with_none(color: Option<Texels>) -> Option<(Texels, Option<Texels>)>
    ensures { option_map target_seen result ≡ option_map (λ c. (c, None)) (option_map texels_seen color) }
{
    match color {
        Some(color) => Some((color, None)),
        None => None,
    }
}

fn with_depth(color: Option<Texels>, depth: Option<Texels>) -> Option<(Texels, Option<Texels>)>
    ensures { option_map target_seen result ≡ option_and_then (with_depth_of (option_map texels_seen depth)) (option_map texels_seen color) }
{
    match (color, depth) {
        (Some(color), Some(depth)) => Some((color, Some(depth))),
        _ => None,
    }
}

/// Puts texels back into a frame buffer's textures.
pub(crate) fn put_attached(
    textures: &mut Row<Texture>,
    color: u16,
    depth: Option<u16>,
    color_texels: Texels,
    depth_texels: Option<Texels>,
)
    ensures { textures.new ≡ attached_back (record { color = color; depth = depth }) (texels_seen color_texels) (option_map texels_seen depth_texels) textures.old }
{
    put_texels(textures, color, color_texels);
    match (depth, depth_texels) {
        (Some(depth), Some(texels)) => put_texels(textures, depth, texels),
        _ => {}
    }
}
