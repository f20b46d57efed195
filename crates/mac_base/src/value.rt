ghost use Rattle.std.specs.Prelude.{◌≡◌};
ghost use Rattle.mac_base.specs.Input.{Gives, Reads};
ghost use Rattle.mac_base.specs.Forms.{layout_by_form};
ghost use Rattle.mac_base.specs.Values.{value_of, value_at, offset_at};

use crate::cursor::{Cursor, CursorFault};
use crate::form::{Form, Layout, layout_of};

/// How many bytes a unit's offsets and addresses have.
#[derive(Clone, Copy, Debug, PartialEq, Eq)]
pub struct Sizes {
    /// Whether offsets have 8 bytes, and not 4.
    pub wide: bool,
    /// The bytes of an address.
    pub address: u8,
}

/// What is spelled in a form.
#[derive(Clone, Copy, Debug, PartialEq, Eq)]
pub enum Value<'a> {
    /// No bytes.
    Nothing,
    /// A number, an offset or an index.
    Number(u64),
    /// A number with a sign.
    Signed(i64),
    /// A string without its NUL.
    Text(&'a [u8]),
    /// Other bytes.
    Bytes(&'a [u8]),
}

/// Reads a value in a form. A fault is that of the field: of a block the length is one, and the bytes are the next. It
/// leaves the cursor where it was.
pub fn read_value<'a>(
    cursor: &mut Cursor<'a>,
    form: Form,
    sizes: Sizes,
) -> Result<Value<'a>, CursorFault>
    ensures { Gives value_of cursor.old cursor.new result (value_at sizes (layout_by_form form) cursor.old) }
{
    let mut ahead = cursor.fork();
    let value = value_ahead(&mut ahead, layout_of(form), sizes)?;
    *cursor = ahead;
    Ok(value)
}

/// The same on a copy of the cursor, by the bytes that the form wants.
fn value_ahead<'a>(
    cursor: &mut Cursor<'a>,
    layout: Layout,
    sizes: Sizes,
) -> Result<Value<'a>, CursorFault>
    ensures { Reads value_of cursor.new result (value_at sizes layout cursor.old) }
{
    match layout {
        Layout::Nothing => Ok(Value::Nothing),
        Layout::One => Ok(Value::Number(u64::from(cursor.u8()?))),
        Layout::Two => Ok(Value::Number(u64::from(cursor.u16()?))),
        Layout::Three => Ok(Value::Number(u64::from(cursor.u24()?))),
        Layout::Four => Ok(Value::Number(u64::from(cursor.u32()?))),
        Layout::Eight => Ok(Value::Number(cursor.u64()?)),
        Layout::Sixteen => Ok(Value::Bytes(cursor.bytes(16)?)),
        Layout::Address => Ok(Value::Bytes(cursor.bytes(u64::from(sizes.address))?)),
        Layout::Offset => Ok(Value::Number(read_offset(cursor, sizes.wide)?)),
        Layout::Uleb => Ok(Value::Number(cursor.uleb()?)),
        Layout::Sleb => Ok(Value::Signed(cursor.sleb()?)),
        Layout::Text => Ok(Value::Text(cursor.cstr()?)),
        Layout::Counted1 => {
            let length = u64::from(cursor.u8()?);
            Ok(Value::Bytes(cursor.bytes(length)?))
        }
        Layout::Counted2 => {
            let length = u64::from(cursor.u16()?);
            Ok(Value::Bytes(cursor.bytes(length)?))
        }
        Layout::Counted4 => {
            let length = u64::from(cursor.u32()?);
            Ok(Value::Bytes(cursor.bytes(length)?))
        }
        Layout::CountedUleb => {
            let length = cursor.uleb()?;
            Ok(Value::Bytes(cursor.bytes(length)?))
        }
    }
}

/// Reads an offset into a section: four bytes, or eight in the 64-bit format (7.4).
pub fn read_offset(cursor: &mut Cursor<'_>, wide: bool) -> Result<u64, CursorFault>
    ensures { Gives (λ n. n) cursor.old cursor.new result (offset_at wide cursor.old) }
{
    if wide {
        cursor.u64()
    } else {
        Ok(u64::from(cursor.u32()?))
    }
}
