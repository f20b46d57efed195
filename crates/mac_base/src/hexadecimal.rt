ghost use Rattle.std.specs.Prelude.{◌≡◌, ◌<◌, ◌≤◌, ◌++◌, drop, false, OnOk};
ghost use Rattle.std.specs.Fmt.{digits, digit_glyph};
ghost use Rattle.mac_base.specs.ReportText as spec;

use crate::memory::NoMemory;

/// Writes the hexadecimal digits of a number at the end of the room, and says where they begin.
pub fn hex_digits(number: u64, room: &mut [u8; 64]) -> usize
    ensures bound { result ≤ 64 }
    ensures digits { drop result room.new ≡ digits 16 false number }
{
    let mut start = 64;
    let mut rest = number;
    while start > 0 {
        start -= 1;
        room[start] = glyph(rest % 16);
        rest /= 16;
        if rest == 0 {
            break;
        }
    }
    start
}

/// The hexadecimal digit of a value.
fn glyph(value: u64) -> u8
    requires { value < 16 }
    ensures { result ≡ digit_glyph false value }
{
    if value < 10 {
        b'0' + value as u8
    } else {
        b'a' + (value as u8 - 10)
    }
}

/// Appends a number in hexadecimal, after `0x`.
pub fn push_hex(text: &mut Vec<u8>, number: u64) -> Result<(), NoMemory>
    ensures { OnOk result (text.new.items ≡ text.old.items ++ spec.hex number) }
{
    let mut room = [0; 64];
    let start = hex_digits(number, &mut room);
    text.extend_from_slice(b"0x")?;
    text.extend_from_slice(&room[start..])?;
    Ok(())
}
