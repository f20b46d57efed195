ghost use Rattle.std.specs.Prelude.{◌≡◌, ◌≤◌, ◌<◌, ◌++◌, replicate, IfOk, OnOk, OnErr};
ghost use Rattle.string_sections.specs.Contributions.{header_bytes, offsets_bytes};

use mac_base::{NoMemory, push_length};
use std::alloc::Global;

/// Appends a contribution of string offsets (DWARF 5, 7.26) with `count` entries of four bytes, or of eight in the 64-bit
/// format: its header, and 0 for each entry. After `NoMemory` the bytes are as before.
pub fn write_offsets(into: &mut Vec<u8>, count: u32, wide: bool) -> Result<(), NoMemory>
    requires { count ≤ 268_435_454 }
    ensures ok { OnOk result (into.new.items ≡ into.old.items ++ offsets_bytes wide count) }
    ensures err { OnErr result (into.new.items ≡ into.old.items) }
{
    let size = count as usize * if wide { 8 } else { 4 };
    let header = header_of(*into.allocator(), size, wide)?;
    let start = into.len();
    into.extend_from_slice(header.as_slice())?;
    if push_zeros(into, size).is_err() {
        into.truncate(start);
        return Err(NoMemory);
    }
    Ok(())
}

/// The header of a contribution whose entries have so many bytes.
#[tactic(auto, unfolding(crate::specs::Contributions::header_bytes))]
fn header_of(alloc: Global, size: usize, wide: bool) -> Result<Vec<u8>, NoMemory>
    requires { size < 0x8000_0000 }
    ensures { IfOk result (λ bytes. bytes.items ≡ header_bytes wide size) }
{
    let mut bytes = Vec::new(alloc);
    push_length(&mut bytes, wide, 4 + size as u64)?;
    bytes.extend_from_slice(&[5, 0, 0, 0])?;
    Ok(bytes)
}

/// Appends so many zero bytes.
fn push_zeros(into: &mut Vec<u8>, count: usize) -> Result<(), NoMemory>
    ensures ok { OnOk result (into.new.items ≡ into.old.items ++ replicate count 0) }
    ensures err { OnErr result (into.new.items ≡ into.old.items) }
{
    let Some(end) = into.len().checked_add(count) else {
        return Err(NoMemory);
    };
    into.resize(end, 0)?;
    Ok(())
}
