// Sums of bytes.
ghost use Rattle.std.specs.Prelude.{◌≡◌, ◌≤◌, ◌%◌, ◌^◌, length, sum};

// How many bytes are summed in 16 bits: their sum is at most 65,280.
const BLOCK: usize = 256;

// The sum of so many bytes, which vectors of 16 bits take.
fn sum_of_block(block: &[u8]) -> u16
    requires { length block.now ≤ 256 }
    ensures { result ≡ sum block.now }
{
    let mut total: u16 = 0;
    for byte in block {
        total += u16::from(*byte);
    }
    total
}

/// The sum of bytes modulo 2^32.
pub fn sum_of(bytes: &[u8]) -> u32
    ensures { result ≡ sum bytes.now % 2 ^ 32 }
{
    let mut total: u32 = 0;
    let mut rest = bytes;
    while rest.len() > BLOCK {
        let (block, after) = rest.split_at(BLOCK);
        total = total.wrapping_add(u32::from(sum_of_block(block)));
        rest = after;
    }
    total.wrapping_add(u32::from(sum_of_block(rest)))
}
