ghost use Rattle.std.specs.Prelude.{◌≡◌, ◌≤◌, ◌<◌, ◌^◌, ◌||◌, ◌++◌, nat_lt, take, IsTrue, OnOk, OnErr};
ghost use Rattle.mac_base.specs.Values.{offset_width};
ghost use Rattle.mac_base.specs.Writing.{uleb_bytes, fixed_bytes, length_bytes, offset_bytes, string_bytes, is_width};

use crate::memory::NoMemory;

/// Appends the shortest spelling of a number in ULEB128 (DWARF 5, 7.6). After `NoMemory` the bytes are as before.
pub fn push_uleb(into: &mut Vec<u8>, v: u64) -> Result<(), NoMemory>
    ensures ok { OnOk result (into.new.items ≡ into.old.items ++ uleb_bytes v) }
    ensures err { OnErr result (into.new.items ≡ into.old.items) }
{
    let mut room = [0; 10];
    let count = write_digits(v, &mut room);
    into.extend_from_slice(&room[..count])?;
    Ok(())
}

/// Writes the digits of seven bits at the beginning of the room, and says how many they are.
fn write_digits(v: u64, room: &mut [u8; 10]) -> usize
    ensures bound { result ≤ 10 }
    ensures digits { take result room.new ≡ uleb_bytes v }
{
    let mut rest = v;
    let mut end = 0;
    while rest >= 128 {
        room[end] = 128 + (rest % 128) as u8;
        end += 1;
        rest /= 128;
    }
    room[end] = rest as u8;
    end + 1
}

/// Appends a number in `width` bytes, the lowest first (DWARF 5, 7.4). After `NoMemory` the bytes are as before.
pub fn push_fixed(into: &mut Vec<u8>, v: u64, width: u8) -> Result<(), NoMemory>
    requires width { IsTrue (is_width width) }
    requires fits { v < 256 ^ width }
    ensures ok { OnOk result (into.new.items ≡ into.old.items ++ fixed_bytes width v) }
    ensures err { OnErr result (into.new.items ≡ into.old.items) }
{
    into.extend_from_slice(&v.to_le_bytes()[..width as usize])?;
    Ok(())
}

/// Appends the length of a unit (DWARF 5, 7.4): four bytes, or ffffffff and eight bytes in the 64-bit format. After
/// `NoMemory` the bytes are as before.
pub fn push_length(into: &mut Vec<u8>, wide: bool, length: u64) -> Result<(), NoMemory>
    requires { IsTrue (wide || nat_lt length 0xffff_fff0) }
    ensures ok { OnOk result (into.new.items ≡ into.old.items ++ length_bytes wide length) }
    ensures err { OnErr result (into.new.items ≡ into.old.items) }
{
    if !wide {
        return push_fixed(into, length, 4);
    }
    let before = into.len();
    push_fixed(into, 0xffff_ffff, 4)?;
    match push_fixed(into, length, 8) {
        Ok(()) => Ok(()),
        Err(fault) => {
            into.truncate(before);
            Err(fault)
        }
    }
}

/// Appends an offset into a section (DWARF 5, 7.4): four bytes, or eight in the 64-bit format. After `NoMemory` the bytes
/// are as before.
pub fn push_section_offset(into: &mut Vec<u8>, wide: bool, offset: u64) -> Result<(), NoMemory>
    requires { offset < 256 ^ offset_width wide }
    ensures ok { OnOk result (into.new.items ≡ into.old.items ++ offset_bytes wide offset) }
    ensures err { OnErr result (into.new.items ≡ into.old.items) }
{
    if wide {
        push_fixed(into, offset, 8)
    } else {
        push_fixed(into, offset, 4)
    }
}

/// Appends a string and its NUL (DWARF 5, 7.5.5). After `NoMemory` the bytes are as before.
pub fn push_string(into: &mut Vec<u8>, text: &[u8]) -> Result<(), NoMemory>
    ensures ok { OnOk result (into.new.items ≡ into.old.items ++ string_bytes text.now) }
    ensures err { OnErr result (into.new.items ≡ into.old.items) }
{
    let before = into.len();
    into.extend_from_slice(text)?;
    match into.push(0) {
        Ok(()) => Ok(()),
        Err(_) => {
            into.truncate(before);
            Err(NoMemory)
        }
    }
}
