ghost use Rattle.std.specs.Prelude.{◌≡◌};
ghost use Rattle.mac_base.specs.Input.{Reads};
ghost use Rattle.mac_base.specs.Forms.{form_by_code};
ghost use Rattle.mac_base.specs.Values.{value_of};
ghost use Rattle.info_roots.specs.Faults.{Passes};
ghost use Rattle.info_roots.specs.Entries.{role_by_name, form_fits, form_names, inner_by_code, passed_at, fitting, attribute_read, entry_at, entry_of, no_entry, with_role, text_of, text_by, number_in};

use crate::abbreviation::Attribute;
use crate::dwarf::{
    DW_AT_COMP_DIR, DW_AT_MACROS, DW_AT_NAME, DW_AT_STMT_LIST, DW_AT_STR_OFFSETS_BASE,
    DW_FORM_INDIRECT,
};
use crate::fault::{InfoFault, InfoKind};
use mac_base::{Cursor, Form, Sizes, Value, form_of, read_value};

/// What an attribute is read for (7.5.4).
#[derive(Clone, Copy, Debug, PartialEq, Eq)]
pub enum Role {
    /// `DW_AT_name`.
    Name,
    /// `DW_AT_stmt_list`: the line table.
    Line,
    /// `DW_AT_comp_dir`.
    Dir,
    /// `DW_AT_str_offsets_base`.
    StrBase,
    /// `DW_AT_macros`.
    Macros,
    /// Nothing.
    Other,
}

/// A string as an attribute says it.
#[derive(Clone, Copy, Debug, PartialEq, Eq)]
pub enum Text<'a> {
    /// The string itself.
    Here(&'a [u8]),
    /// An offset into `.debug_str`.
    Str(u64),
    /// An offset into `.debug_line_str`.
    LineStr(u64),
    /// The index of an entry of `.debug_str_offsets`.
    Index(u64),
}

/// What the first entry of a unit says of its macro information.
#[derive(Clone, Copy, Debug, PartialEq, Eq)]
pub struct Entry<'a> {
    pub name: Option<Text<'a>>,
    pub dir: Option<Text<'a>>,
    pub line: Option<u64>,
    pub str_base: Option<u64>,
    pub macros: Option<u64>,
    /// Whether the directory comes before the name.
    pub dir_first: bool,
}

/// Reads an entry, attribute by attribute.
pub fn read_entry<'a>(
    cursor: &mut Cursor<'a>,
    sizes: Sizes,
    attributes: &[Attribute],
) -> Result<Entry<'a>, InfoFault>
    ensures { Reads entry_of cursor.new result (entry_at sizes attributes.now no_entry cursor.old) }
{
    let mut entry = Entry {
        name: None,
        dir: None,
        line: None,
        str_base: None,
        macros: None,
        dir_first: false,
    };
    for attribute in attributes {
        entry = with_attribute(cursor, sizes, *attribute, entry)?;
    }
    Ok(entry)
}

/// Reads the next attribute of an entry.
fn with_attribute<'a>(
    cursor: &mut Cursor<'a>,
    sizes: Sizes,
    attribute: Attribute,
    entry: Entry<'a>,
) -> Result<Entry<'a>, InfoFault>
    ensures { Reads entry_of cursor.new result (attribute_read sizes attribute (entry_of entry.entry) cursor.old) }
{
    match role_of(&entry, attribute.name) {
        Role::Other => {
            pass_value(cursor, sizes, attribute.form)?;
            Ok(entry)
        }
        role => with_fitting(cursor, sizes, role, attribute.form, entry),
    }
}

/// Reads the value of an attribute that is read for this, if it has a form that it can have.
fn with_fitting<'a>(
    cursor: &mut Cursor<'a>,
    sizes: Sizes,
    role: Role,
    code: u64,
    entry: Entry<'a>,
) -> Result<Entry<'a>, InfoFault>
    ensures { Reads entry_of cursor.new result (fitting sizes role (form_by_code code) (entry_of entry.entry) cursor.old) }
{
    let at = cursor.at() as u64;
    let Some(form) = form_of(code) else {
        return Err(InfoFault::new(at, InfoKind::Form));
    };
    if !fits(role, form) {
        return Err(InfoFault::new(at, InfoKind::Form));
    }
    let value = read_value(cursor, form, sizes)?;
    Ok(with_value(role, form, value, entry))
}

/// What an attribute of this name is for. Of two equal names the first counts.
fn role_of(entry: &Entry<'_>, name: u64) -> Role
    ensures { result ≡ role_by_name (entry_of entry.now) name }
{
    match name {
        DW_AT_NAME if entry.name.is_none() => Role::Name,
        DW_AT_STMT_LIST if entry.line.is_none() => Role::Line,
        DW_AT_COMP_DIR if entry.dir.is_none() => Role::Dir,
        DW_AT_STR_OFFSETS_BASE if entry.str_base.is_none() => Role::StrBase,
        DW_AT_MACROS if entry.macros.is_none() => Role::Macros,
        _ => Role::Other,
    }
}

/// Whether an attribute that is read for this can have this form.
fn fits(role: Role, form: Form) -> bool
    ensures { result ≡ form_fits role form }
{
    match role {
        Role::Name | Role::Dir => names(form),
        _ => matches!(form, Form::SecOffset),
    }
}

/// Whether a string can have this form.
fn names(form: Form) -> bool
    ensures { result ≡ form_names form }
{
    matches!(
        form,
        Form::String
            | Form::Strp
            | Form::LineStrp
            | Form::Strx
            | Form::Strx1
            | Form::Strx2
            | Form::Strx3
            | Form::Strx4
    )
}

/// Passes over the value of an attribute that is not read, in any known form.
fn pass_value(cursor: &mut Cursor<'_>, sizes: Sizes, form: u64) -> Result<(), InfoFault>
    ensures { Passes cursor.new result (passed_at sizes form cursor.old) }
{
    let at = cursor.at() as u64;
    let known = if form == DW_FORM_INDIRECT {
        inner_form(cursor.uleb()?)
    } else {
        form_of(form)
    };
    match known {
        Some(form) => {
            let _value = read_value(cursor, form, sizes)?;
            Ok(())
        }
        None => Err(InfoFault::new(at, InfoKind::Form)),
    }
}

/// The form that an indirect value can have.
fn inner_form(code: u64) -> Option<Form>
    ensures { result ≡ inner_by_code code }
{
    match form_of(code) {
        Some(Form::ImplicitConst) => None,
        form => form,
    }
}

/// The entry with one more value.
fn with_value<'a>(role: Role, form: Form, value: Value<'a>, entry: Entry<'a>) -> Entry<'a>
    ensures { entry_of result ≡ with_role role form (value_of value.entry) (entry_of entry.entry) }
{
    let mut next = entry;
    match role {
        Role::Name => next.name = Some(text_by_form(form, value)),
        Role::Dir => {
            next.dir_first = entry.name.is_none();
            next.dir = Some(text_by_form(form, value));
        }
        Role::Line => next.line = Some(number_of(value)),
        Role::StrBase => next.str_base = Some(number_of(value)),
        Role::Macros => next.macros = Some(number_of(value)),
        Role::Other => {}
    }
    next
}

/// The string that a value in a form says.
fn text_by_form<'a>(form: Form, value: Value<'a>) -> Text<'a>
    ensures { text_of result ≡ text_by form (value_of value.entry) }
{
    let number = match value {
        Value::Text(text) => return Text::Here(text),
        Value::Number(number) => number,
        _ => return Text::Here(b""),
    };
    match form {
        Form::Strp => Text::Str(number),
        Form::LineStrp => Text::LineStr(number),
        _ => Text::Index(number),
    }
}

/// The number that a value is.
fn number_of(value: Value<'_>) -> u64
    ensures { result ≡ number_in (value_of value.entry) }
{
    match value {
        Value::Number(number) => number,
        _ => 0,
    }
}
