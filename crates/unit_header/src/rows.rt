ghost use Rattle.std.specs.Prelude.{◌≡◌, ◌==◌, ◌||◌, [], slice_index_or, false};
ghost use Rattle.unit_header.specs.Opcodes as spec;
ghost use Rattle.unit_header.specs.Reading.{Passes, after_rows, after_count, after_own, after_known};

use crate::fault::{UnitFault, UnitKind};
use crate::opcode::Opcode;
use mac_base::{Cursor, Form, form_of};

/// Goes over the rows of an operand table, and tests each (DWARF 5, 6.3.1.3).
pub fn pass_rows(cursor: &mut Cursor<'_>, count: u8) -> Result<(), UnitFault>
    ensures { Passes cursor.new result (after_rows [] count cursor.old) }
{
    let mut seen = [false; 256];
    for _ in 0..count {
        let at = cursor.at() as u64;
        let opcode = cursor.u8()?;
        if is_barred(&seen, opcode) {
            return Err(UnitFault {
                at,
                what: UnitKind::OperandTable,
            });
        }
        seen[opcode as usize] = true;
        pass_count(cursor, at, opcode)?;
    }
    Ok(())
}

/// Whether no row may have the opcode: it is 0, or marked.
fn is_barred(marks: &[bool; 256], opcode: u8) -> bool
    ensures { result ≡ (opcode == 0 || slice_index_or marks.now opcode false) }
{
    opcode == 0 || marks[opcode as usize]
}

/// Goes over the number of a row's forms, and the forms. The row begins at `at`.
fn pass_count(cursor: &mut Cursor<'_>, at: u64, opcode: u8) -> Result<(), UnitFault>
    ensures { Passes cursor.new result (after_count at opcode cursor.old) }
{
    let count = cursor.uleb()?;
    let Some(own) = Opcode::of(opcode).forms() else {
        return pass_known(cursor, count);
    };
    if count != own.len() as u64 {
        return Err(UnitFault {
            at,
            what: UnitKind::OperandTable,
        });
    }
    pass_own(cursor, at, own)
}

/// Goes over form bytes that have to be these.
fn pass_own(cursor: &mut Cursor<'_>, at: u64, own: &[u8]) -> Result<(), UnitFault>
    ensures { Passes cursor.new result (after_own at own.now cursor.old) }
{
    for code in own {
        if cursor.u8()? != *code {
            return Err(UnitFault {
                at,
                what: UnitKind::OperandTable,
            });
        }
    }
    Ok(())
}

/// Goes over so many form bytes that macro entries have to have.
fn pass_known(cursor: &mut Cursor<'_>, count: u64) -> Result<(), UnitFault>
    ensures { Passes cursor.new result (after_known count cursor.old) }
{
    for _ in 0..count {
        let at = cursor.at() as u64;
        if !is_macro_form(cursor.u8()?) {
            return Err(UnitFault {
                at,
                what: UnitKind::Form,
            });
        }
    }
    Ok(())
}

/// Whether an operand table may name the form of this code.
fn is_macro_form(code: u8) -> bool
    ensures { result ≡ spec.is_macro_form code }
{
    match form_of(u64::from(code)) {
        None => false,
        Some(form) => may_be_listed(form),
    }
}

/// Whether an operand table may name the form (DWARF 5, 7.23).
fn may_be_listed(form: Form) -> bool
    ensures { result ≡ spec.may_be_listed form }
{
    matches!(
        form,
        Form::Block2
            | Form::Block4
            | Form::Data2
            | Form::Data4
            | Form::Data8
            | Form::String
            | Form::Block
            | Form::Block1
            | Form::Data1
            | Form::Flag
            | Form::Sdata
            | Form::Strp
            | Form::Udata
            | Form::SecOffset
            | Form::Strx
            | Form::StrpSup
            | Form::Data16
            | Form::LineStrp
            | Form::Strx1
            | Form::Strx2
            | Form::Strx3
            | Form::Strx4
    )
}
