ghost use Rattle.std.specs.Prelude.{◌≡◌};
ghost use Rattle.std.specs.Option.{option_copied};
ghost use Rattle.mac_base.specs.Input.{Gives};
ghost use Rattle.unit_header.specs.Rows.{rows_from, row_at, listed_forms};

use mac_base::{Cursor, CursorFault};
use std::marker::Model;

/// The operand table of a macro unit (DWARF 5, 6.3.1.3), as it is in the section; without rows where the macro unit has none.
#[derive(Drop)]
pub struct Operands<'a> {
    count: u8,
    rows: Cursor<'a>,
}

impl<'a> Model for Operands<'a> {
    ghost use Rattle.std.specs.Prelude.{List};
    ghost use Rattle.unit_header.specs.Rows.{Row, rows_from};

    ghost Value = { List Row };

    ghost view = { λ o. rows_from o.count o.rows };
}

impl<'a> Operands<'a> {
    /// The table of so many rows from this place on.
    pub fn new(count: u8, rows: Cursor<'a>) -> Operands<'a>
        ensures { result ≡ rows_from count rows.entry }
    {
        Operands { count, rows }
    }

    /// The codes of the forms that are listed for the opcode, in order; `None` exactly where it isn't listed.
    pub fn forms(&self, opcode: u8) -> Option<&'a [u8]>
        ensures { option_copied result ≡ listed_forms self.now opcode }
    {
        forms_in(self.count, self.rows.fork(), opcode)
    }
}

/// The forms of the first of so many rows that has the opcode.
fn forms_in<'a>(count: u8, mut rows: Cursor<'a>, opcode: u8) -> Option<&'a [u8]>
    ensures { option_copied result ≡ listed_forms (rows_from count rows.entry) opcode }
{
    for _ in 0..count {
        let Ok((listed, codes)) = read_row(&mut rows) else {
            return None;
        };
        if listed == opcode {
            return Some(codes);
        }
    }
    None
}

/// The opcode of a row and the codes of its forms.
fn read_row<'a>(cursor: &mut Cursor<'a>) -> Result<(u8, &'a [u8]), CursorFault>
    ensures { Gives (λ row. record { opcode = row.0; codes = row.1.now }) cursor.old cursor.new result (row_at cursor.old) }
{
    let mut ahead = cursor.fork();
    let opcode = ahead.u8()?;
    let count = ahead.uleb()?;
    let codes = ahead.bytes(count)?;
    *cursor = ahead;
    Ok((opcode, codes))
}
