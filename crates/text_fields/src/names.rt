// Names.
ghost use Rattle.std.specs.Prelude.{◌≡◌};
ghost use Rattle.std.specs.List.{list_all};
ghost use Rattle.scene_model.specs.Field.{is_name, is_name_byte, is_lower};

fn is_lower(byte: u8) -> bool
    ensures { result ≡ is_lower byte }
{
    byte >= b'a' && byte <= b'z'
}

fn is_name_byte(byte: u8) -> bool
    ensures { result ≡ is_name_byte byte }
{
    is_lower(byte) || (byte >= b'0' && byte <= b'9') || byte == b'_'
}

fn all_name_bytes(bytes: &[u8]) -> bool
    ensures { result ≡ list_all is_name_byte bytes.now }
{
    bytes.iter().all(|b| is_name_byte(*b))
}

/// Whether a field is spelled as a name: one to 32 bytes, a letter a to z, then letters, digits or `_`.
pub fn is_name(field: &[u8]) -> bool
    ensures { result ≡ is_name field.now }
{
    match field {
        [] => false,
        [first, rest @ ..] => {
            if !is_lower(*first) {
                return false;
            }
            if !all_name_bytes(rest) {
                return false;
            }
            rest.len() <= 31
        }
    }
}
