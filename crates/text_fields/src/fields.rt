// A field of a line.
ghost use Rattle.std.specs.Prelude.{◌≡◌, bytes_eq};
ghost use Rattle.scene_model.specs.Grammar.{field};
ghost use Rattle.text_fields.specs.Fields.{texts};

/// The field at a place, or no bytes.
pub fn field<'a>(fields: &[&'a [u8]], place: usize) -> &'a [u8]
    ensures { result.now ≡ field (texts fields.now) place }
{
    match fields.get(place) {
        Some(found) => found,
        None => &[],
    }
}

/// Whether bytes are a word.
pub fn is(word: &[u8], bytes: &[u8]) -> bool
    ensures { result ≡ bytes_eq word.now bytes.now }
{
    word == bytes
}
