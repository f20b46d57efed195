ghost use Rattle.std.specs.Prelude.{◌≡◌, ◌+◌, ◌≤◌, length};
ghost use Rattle.section_views.specs.FileHeader.{number_in};

/// The byte at a place.
pub fn u8_at(bytes: &[u8], at: usize) -> u8
    requires { at + 1 ≤ length bytes.now }
    ensures { result ≡ number_in bytes.now at 1 }
{
    match &bytes[at..] {
        [byte, ..] => *byte,
        _ => unreachable!(),
    }
}

/// The number of two bytes at a place, the lowest first.
pub fn u16_at(bytes: &[u8], at: usize) -> u16
    requires { at + 2 ≤ length bytes.now }
    ensures { result ≡ number_in bytes.now at 2 }
{
    match &bytes[at..] {
        [a, b, ..] => u16::from_le_bytes([*a, *b]),
        _ => unreachable!(),
    }
}

/// The number of four bytes at a place, the lowest first.
pub fn u32_at(bytes: &[u8], at: usize) -> u32
    requires { at + 4 ≤ length bytes.now }
    ensures { result ≡ number_in bytes.now at 4 }
{
    match &bytes[at..] {
        [a, b, c, d, ..] => u32::from_le_bytes([*a, *b, *c, *d]),
        _ => unreachable!(),
    }
}

/// The number of eight bytes at a place, the lowest first.
pub fn u64_at(bytes: &[u8], at: usize) -> u64
    requires { at + 8 ≤ length bytes.now }
    ensures { result ≡ number_in bytes.now at 8 }
{
    match &bytes[at..] {
        [a, b, c, d, e, f, g, h, ..] => u64::from_le_bytes([*a, *b, *c, *d, *e, *f, *g, *h]),
        _ => unreachable!(),
    }
}
