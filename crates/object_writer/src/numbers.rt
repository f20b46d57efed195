ghost use Rattle.std.specs.Prelude.{◌≡◌, ◌++◌, replicate, OnOk};
ghost use Rattle.object_writer.specs.Elf.{half, word, xword};

use mac_base::{NoMemory, push_fixed};

/// Appends a number of the type `Elf64_Half`.
#[tactic(auto, unfolding(crate::specs::Elf::half))]
pub fn push_half(into: &mut Vec<u8>, n: u16) -> Result<(), NoMemory>
    ensures { OnOk result (into.new.items ≡ into.old.items ++ half n) }
{
    push_fixed(into, n as u64, 2)
}

/// Appends a number of the type `Elf64_Word`.
#[tactic(auto, unfolding(crate::specs::Elf::word))]
pub fn push_word(into: &mut Vec<u8>, n: u32) -> Result<(), NoMemory>
    ensures { OnOk result (into.new.items ≡ into.old.items ++ word n) }
{
    push_fixed(into, n as u64, 4)
}

/// Appends a number of the type `Elf64_Xword`, `Elf64_Addr` or `Elf64_Off`.
#[tactic(auto, unfolding(crate::specs::Elf::xword))]
pub fn push_xword(into: &mut Vec<u8>, n: u64) -> Result<(), NoMemory>
    ensures { OnOk result (into.new.items ≡ into.old.items ++ xword n) }
{
    push_fixed(into, n, 8)
}

/// Appends so many zero bytes.
pub fn push_zeros(into: &mut Vec<u8>, count: usize) -> Result<(), NoMemory>
    ensures { OnOk result (into.new.items ≡ into.old.items ++ replicate count 0) }
{
    let Some(end) = into.len().checked_add(count) else {
        return Err(NoMemory);
    };
    into.resize(end, 0)?;
    Ok(())
}
