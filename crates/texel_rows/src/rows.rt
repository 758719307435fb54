// Rows of texels in a buffer.
ghost use Rattle.std.specs.Prelude.{◌≡◌, ◌≤◌, ◌+◌, ◌*◌, ◌++◌, length, take, drop, flat_map, nat_le};
ghost use Rattle.fix_math.specs.Seen.{texels_seen};
ghost use Rattle.texel_rows.specs.Rows.{exchanged, row_bytes, rows_in, with_rows, least_room};

use fix_math::Texels;

/// The order in which the bytes of a texel are written.
#[derive(Clone, Copy, Drop, PartialEq, Eq, Debug)]
pub enum ByteOrder {
    /// As they are kept: red, green, blue and alpha; or the depth in three bytes, lowest first, and the stencil.
    Kept,
    /// With the first and the third exchanged: blue, green, red and alpha.
    Exchanged,
}

// Writes four texels with their first and third bytes exchanged. One store of sixteen bytes is faster than several of fewer.
fn exchange_four(room: &mut [u8], row: &[[u8; 4]])
    requires room { length room.old ≡ 16 }
    requires four { length row.now ≡ 4 }
    ensures many { length room.new ≡ 16 }
    ensures written { room.new ≡ flat_map exchanged row.now }
{
    let [red0, green0, blue0, alpha0] = row[0];
    let [red1, green1, blue1, alpha1] = row[1];
    let [red2, green2, blue2, alpha2] = row[2];
    let [red3, green3, blue3, alpha3] = row[3];
    room.copy_from_slice(&[
        blue0, green0, red0, alpha0, blue1, green1, red1, alpha1, blue2, green2, red2, alpha2,
        blue3, green3, red3, alpha3,
    ]);
}

// Writes as many times four texels so.
fn exchange_most(room: &mut [u8], row: &[[u8; 4]], fours: usize)
    requires room { length room.old ≡ 4 * length row.now }
    requires most { 4 * fours ≤ length row.now }
    ensures many { length room.new ≡ length room.old }
    ensures written { take (16 * fours) room.new ≡ flat_map exchanged (take (4 * fours) row.now) }
{
    for i in 0..fours {
        exchange_four(&mut room[16 * i..16 * i + 16], &row[4 * i..4 * i + 4]);
    }
}

// Writes each texel so.
fn write_exchanged(room: &mut [u8], row: &[[u8; 4]])
    requires { length room.old ≡ 4 * length row.now }
    ensures { room.new ≡ flat_map exchanged row.now }
{
    let fours = row.len() / 4;
    exchange_most(room, row, fours);
    for i in 4 * fours..row.len() {
        let [red, green, blue, alpha] = row[i];
        let at = 4 * i;
        room[at] = blue;
        room[at + 1] = green;
        room[at + 2] = red;
        room[at + 3] = alpha;
    }
}

// Writes a row of texels.
fn write_row(order: ByteOrder, room: &mut [u8], row: &[[u8; 4]])
    requires { length room.old ≡ 4 * length row.now }
    ensures { room.new ≡ row_bytes order row.now }
{
    match order {
        ByteOrder::Kept => room.copy_from_slice(row.as_flattened()),
        ByteOrder::Exchanged => write_exchanged(room, row),
    }
}

// Writes a row of texels at a place of a buffer.
fn put_row(order: ByteOrder, buffer: &mut [u8], at: usize, row: &[[u8; 4]])
    requires { at + 4 * length row.now ≤ length buffer.old }
    ensures put { buffer.new ≡ take at buffer.old ++ (row_bytes order row.now ++ drop (at + length (row_bytes order row.now)) buffer.old) }
    ensures many { length (row_bytes order row.now) ≡ 4 * length row.now }
{
    write_row(order, &mut buffer[at..at + 4 * row.len()], row);
}

/// Whether a buffer of a length has room for texels with a stride, in bytes.
pub fn has_room(texels: &Texels, stride: usize, length: usize) -> bool
    ensures { result ≡ nat_le (least_room stride (texels_seen texels.now)) length }
{
    let row = 4 * usize::from(texels.width);
    let rows = usize::from(texels.height) - 1;
    match rows.checked_mul(stride) {
        None => false,
        Some(before) => match before.checked_add(row) {
            None => false,
            Some(all) => all <= length,
        },
    }
}

/// Writes texels row by row from the top, with `stride` bytes from the start of a row to that of the next. What lies behind a row and before
/// the next is left as it is, and what lies behind the last row too. A row has no more bytes than the stride, and the buffer has room.
pub fn write_rows(order: ByteOrder, texels: &Texels, stride: usize, buffer: &mut [u8])
    requires wide { 4 * texels.now.width ≤ stride }
    requires room { least_room stride (texels_seen texels.now) ≤ length buffer.old }
    ensures { buffer.new ≡ with_rows stride (rows_in order (texels_seen texels.now)) buffer.old }
{
    let width = usize::from(texels.width);
    let all = texels.texels.as_slice();
    for y in 0..usize::from(texels.height) {
        put_row(order, buffer, y * stride, &all[y * width..(y + 1) * width]);
    }
}
