ghost use Rattle.std.specs.Prelude.{◌≡◌, ◌≢◌};
ghost use Rattle.mac_base.specs.Input.{Reads};
ghost use Rattle.unit_header.specs.Opcodes.{opcode_by_byte, standard_forms};
ghost use Rattle.unit_header.specs.Header.{header_of, forms_of};
ghost use Rattle.unit_header.specs.declared.opcode.Opcode.TheVariants.{Other};
ghost use Rattle.macro_opcodes.specs.Entry.{operand_of};
ghost use Rattle.macro_opcodes.specs.Spells.{sizes_of};
ghost use Rattle.macro_opcodes.specs.Reading.{said_at, values_at, Skips};

use crate::entry::Operand;
use mac_base::{Cursor, Sizes, form_of, read_offset, read_value};
use unit_header::{Header, Opcode, UnitFault, UnitKind};

/// The line and the rest of an entry, after its opcode, which is at `at`.
pub fn read_operands<'a>(
    cursor: &mut Cursor<'a>,
    header: &Header<'_>,
    at: u64,
    opcode: u8,
) -> Result<(u64, Operand<'a>), UnitFault>
    requires { opcode ≢ 0 }
    ensures { Reads (λ said. (said.0, operand_of said.1)) cursor.new result
        (said_at (sizes_of (header_of header.now)) at (opcode_by_byte opcode) cursor.old (forms_of (header_of header.now) opcode)) }
{
    match Opcode::of(opcode) {
        Opcode::Other => read_listed(cursor, header, at, opcode),
        standard => read_standard(cursor, header.wide, at, standard),
    }
}

/// The same of an opcode that the operand table has to list.
fn read_listed<'a>(
    cursor: &mut Cursor<'a>,
    header: &Header<'_>,
    at: u64,
    opcode: u8,
) -> Result<(u64, Operand<'a>), UnitFault>
    ensures { Reads (λ said. (said.0, operand_of said.1)) cursor.new result
        (said_at (sizes_of (header_of header.now)) at Other cursor.old (forms_of (header_of header.now) opcode)) }
{
    let Some(codes) = header.forms(opcode) else {
        return Err(UnitFault {
            at,
            what: UnitKind::Opcode,
        });
    };
    let sizes = Sizes {
        wide: header.wide,
        address: 0,
    };
    skip_values(cursor, sizes, codes)?;
    Ok((0, Operand::Other))
}

/// Goes over values in the forms of these codes.
fn skip_values(cursor: &mut Cursor<'_>, sizes: Sizes, codes: &[u8]) -> Result<(), UnitFault>
    ensures { Skips cursor.new result (values_at sizes codes.now cursor.old) }
{
    for code in codes {
        let Some(form) = form_of(u64::from(*code)) else {
            return Err(UnitFault {
                at: cursor.at() as u64,
                what: UnitKind::Form,
            });
        };
        let _ = read_value(cursor, form, sizes)?;
    }
    Ok(())
}

/// The same of a standard opcode, by its own forms.
fn read_standard<'a>(
    cursor: &mut Cursor<'a>,
    wide: bool,
    at: u64,
    opcode: Opcode,
) -> Result<(u64, Operand<'a>), UnitFault>
    ensures { Reads (λ said. (said.0, operand_of said.1)) cursor.new result
        (said_at (record { wide = wide; address = 0 }) at opcode cursor.old (standard_forms opcode)) }
{
    match opcode {
        Opcode::Define | Opcode::Undef => {
            let line = cursor.uleb()?;
            Ok((line, Operand::Text(cursor.cstr()?)))
        }
        Opcode::StartFile => {
            let line = cursor.uleb()?;
            Ok((line, Operand::File(cursor.uleb()?)))
        }
        Opcode::EndFile => Ok((0, Operand::None)),
        Opcode::DefineStrp | Opcode::UndefStrp => {
            let line = cursor.uleb()?;
            Ok((line, Operand::Str(read_offset(cursor, wide)?)))
        }
        Opcode::Import => Ok((0, Operand::Macro(read_offset(cursor, wide)?))),
        Opcode::DefineSup | Opcode::UndefSup => {
            let line = cursor.uleb()?;
            Ok((line, Operand::SupStr(read_offset(cursor, wide)?)))
        }
        Opcode::ImportSup => Ok((0, Operand::SupMacro(read_offset(cursor, wide)?))),
        Opcode::DefineStrx | Opcode::UndefStrx => {
            let line = cursor.uleb()?;
            Ok((line, Operand::Index(cursor.uleb()?)))
        }
        Opcode::Other => Err(UnitFault {
            at,
            what: UnitKind::Opcode,
        }),
    }
}
