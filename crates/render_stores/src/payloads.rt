// The payloads of a frame.
ghost use Rattle.std.specs.Prelude.{◌≡◌, option_map, slice_get};
ghost use Rattle.render_stores.specs.Payloads.{payloads_seen};

/// The payload of a number, if there is one.
pub(crate) fn payload_at(payloads: &[Vec<u8>], number: u32) -> Option<&[u8]>
    ensures { option_map (λ bytes. bytes.now) result ≡ slice_get (payloads_seen payloads.now) number }
{
    match payloads.get(number as usize) {
        Some(bytes) => Some(bytes.as_slice()),
        None => None,
    }
}
