ghost use Rattle.std.specs.Prelude.{◌≡◌, IfOk, IfErr, None, Some};
ghost use Rattle.mac_base.specs.SectionBytes.{bytes_of};
ghost use Rattle.section_views.specs.declared.fault.ElfFault.{ElfFault};
ghost use Rattle.section_views.specs.Faults.{first_fault};
ghost use Rattle.section_views.specs.View.{view_of};
ghost use Rattle.macro_query.specs.declared.fault.QueryFault.TheVariants.{Elf as BadElf};

use crate::fault::QueryFault;
use mac_base::Sections;
use section_views::Elf;

/// The sections of an ELF file, or its first fault.
pub fn sections_of(file: &[u8]) -> Result<Sections<'_>, QueryFault>
    ensures ok { IfOk result (λ s. (first_fault file.now ≡ None) × (bytes_of s ≡ view_of file.now)) }
    ensures err { IfErr result (λ fault. (elf : ElfFault) × (fault ≡ BadElf elf) × (first_fault file.now ≡ Some elf)) }
{
    let elf = Elf::read(file)?;
    Ok(elf.sections())
}
