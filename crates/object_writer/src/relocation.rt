ghost use Rattle.std.specs.Prelude.{◌≡◌, ◌++◌, OnOk};
ghost use Rattle.object_writer.specs.Relocations.{relocation_type, relocation_bytes, field_relocations, table_of};

use crate::gabi::{R_X86_64_32, R_X86_64_64};
use crate::numbers::push_xword;
use mac_base::NoMemory;

/// A place in the section of a symbol.
#[derive(Clone, Copy, Debug)]
pub struct Target {
    /// The number of the symbol.
    pub symbol: u32,
    /// In bytes from the section's first.
    pub addend: u32,
}

/// A field that refers to a place.
#[derive(Clone, Copy, Debug)]
pub struct Relocation {
    /// The field's first byte, from the first of the section that has it.
    pub place: u64,
    pub target: Target,
}

/// Appends a relocation of a field of 8 bytes or, where `wide` is false, of 4.
#[tactic(auto, unfolding(crate::specs::Relocations::relocation_bytes))]
pub fn push_relocation(
    into: &mut Vec<u8>,
    wide: bool,
    relocation: Relocation,
) -> Result<(), NoMemory>
    ensures { OnOk result (into.new.items ≡ into.old.items ++ relocation_bytes wide relocation) }
{
    push_xword(into, relocation.place)?;
    push_xword(
        into,
        relocation.target.symbol as u64 * 0x1_0000_0000 + type_of(wide),
    )?;
    push_xword(into, relocation.target.addend as u64)?;
    Ok(())
}

/// The type of a relocation.
fn type_of(wide: bool) -> u64
    ensures { result ≡ relocation_type wide }
{
    if wide { R_X86_64_64 } else { R_X86_64_32 }
}

/// Appends the relocation of a field that may refer to a place.
pub fn push_field(
    into: &mut Vec<u8>,
    wide: bool,
    place: u64,
    target: Option<Target>,
) -> Result<(), NoMemory>
    ensures { OnOk result (into.new.items ≡ into.old.items ++ table_of wide (field_relocations place target)) }
{
    match target {
        None => Ok(()),
        Some(target) => push_relocation(into, wide, Relocation { place, target }),
    }
}
