ghost use Rattle.std.specs.Prelude.{◌≡◌, length, take_while};
ghost use Rattle.mac_base.specs.Names.{is_identifier_byte, name_of};

/// The name with which a text begins.
pub fn name_of(text: &[u8]) -> &[u8]
    ensures { result.now ≡ name_of text.now }
{
    &text[..name_length(text)]
}

fn name_length(text: &[u8]) -> usize
    ensures { result ≡ length (take_while is_identifier_byte text.now) }
{
    text.iter()
        .take_while(|byte| is_identifier_byte(**byte))
        .count()
}

fn is_identifier_byte(byte: u8) -> bool
    ensures { result ≡ is_identifier_byte byte }
{
    byte.is_ascii_alphanumeric() || byte == b'_' || byte == b'$' || byte >= 0x80
}
