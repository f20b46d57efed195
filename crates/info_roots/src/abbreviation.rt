ghost use Rattle.std.specs.Prelude.{◌≡◌, ◌≤◌, [], None, IfOk, OnOk, length};
ghost use Rattle.std.specs.Option.{option_map};
ghost use Rattle.mac_base.specs.Input.{Reads};
ghost use Rattle.info_roots.specs.Tables.{TakesTable};
ghost use Rattle.info_roots.specs.Abbreviations.{attribute_at, ends, attributes_at, declaration_at, abbreviation_in, abbreviation_of, declaration_of};
ghost use Rattle.info_roots.specs.declared.abbreviation.TableFault.TheVariants.{NoMemory as RanOut, Field as BadField};

use crate::dwarf::DW_FORM_IMPLICIT_CONST;
use mac_base::{Cursor, CursorFault, NoMemory};
use std::alloc::{AllocFailed, Global};
use std::marker::Model;

/// The name and the form of an attribute, as numbers.
#[derive(Clone, Copy, Debug, PartialEq, Eq)]
pub struct Attribute {
    pub name: u64,
    pub form: u64,
}

/// An abbreviation: the tag of its entries, and their attributes (7.5.3).
#[derive(Debug, Drop)]
pub struct Abbreviation {
    pub tag: u64,
    pub attributes: Vec<Attribute>,
}

/// An abbreviation and its code.
#[derive(Debug, Drop)]
pub struct Declaration {
    pub code: u64,
    pub abbreviation: Abbreviation,
}

/// Why a declaration can't be read.
#[derive(Debug, Drop)]
pub enum TableFault {
    NoMemory,
    Field(CursorFault),
}

impl From<CursorFault> for TableFault {
    ghost from_gives = { λ fault found. found ≡ BadField fault };

    fn from(fault: CursorFault) -> TableFault {
        TableFault::Field(fault)
    }
}

impl<T: Drop> From<AllocFailed<T>> for TableFault {
    ghost from_gives = { λ _ found. found ≡ RanOut };

    fn from(_error: AllocFailed<T>) -> TableFault {
        TableFault::NoMemory
    }
}

/// The tables of `.debug_abbrev`, and the abbreviation that was looked up last: units that share one don't read its table
/// again.
#[derive(Drop)]
pub struct Abbreviations<'a> {
    section: &'a [u8],
    /// Where it was looked up: its table and its code.
    key: Option<(usize, u64)>,
    found: Option<Abbreviation>,
}

impl<'a> Model for Abbreviations<'a> {
    ghost use Rattle.std.specs.Option.{option_map};
    ghost use Rattle.info_roots.specs.Abbreviations.{LookedUp, abbreviation_of, IsFoundAt};

    ghost Value = { LookedUp };

    ghost view = { λ a. record { section = a.section.now; found = option_map abbreviation_of a.found } };

    ghost invariant = { λ a. IsFoundAt a.section.now (option_map abbreviation_of a.found) a.key };
}

impl<'a> Abbreviations<'a> {
    /// Those of a section, of which none was looked up.
    pub fn new(section: &'a [u8]) -> Abbreviations<'a>
        ensures { result ≡ record { section = section.now; found = None } }
    {
        Abbreviations {
            section,
            key: None,
            found: None,
        }
    }

    /// Looks up the first abbreviation with a code in the table at an offset.
    pub fn look_up(&mut self, alloc: Global, offset: usize, code: u64) -> Result<(), NoMemory>
        requires { offset ≤ length self.old.section }
        ensures section { self.new.section ≡ self.old.section }
        ensures found { OnOk result (self.new.found ≡ abbreviation_in self.old.section offset code) }
    {
        if self.key == Some((offset, code)) {
            return Ok(());
        }
        let found = find_abbreviation(alloc, self.section, offset, code)?;
        self.key = Some((offset, code));
        self.found = found;
        Ok(())
    }

    /// The one that was looked up last, where it was found.
    pub fn found(&self) -> Option<&Abbreviation>
        ensures { option_map (λ found. abbreviation_of found.now) result ≡ self.now.found }
    {
        self.found.as_ref()
    }
}

/// The first abbreviation with a code in the table at an offset of `.debug_abbrev`, if it can be read. What follows it
/// is not read.
fn find_abbreviation(
    alloc: Global,
    section: &[u8],
    offset: usize,
    code: u64,
) -> Result<Option<Abbreviation>, NoMemory>
    requires { offset ≤ length section.now }
    ensures { IfOk result (λ found. option_map abbreviation_of found ≡ abbreviation_in section.now offset code) }
{
    let mut cursor = Cursor::new(section, offset);
    // Each declaration takes a byte or more.
    for _index in 0..section.len() {
        match read_declaration(alloc, &mut cursor, section.len()) {
            Ok(Some(declaration)) => {
                if declaration.code == code {
                    return Ok(Some(declaration.abbreviation));
                }
            }
            Ok(None) | Err(TableFault::Field(_)) => return Ok(None),
            Err(TableFault::NoMemory) => return Err(NoMemory),
        }
    }
    Ok(None)
}

/// Reads the next declaration, or nothing at the 0 that closes the table.
#[tactic(auto, unfolding(crate::specs::Abbreviations::declaration_at))]
fn read_declaration(
    alloc: Global,
    cursor: &mut Cursor<'_>,
    most: usize,
) -> Result<Option<Declaration>, TableFault>
    ensures { TakesTable (option_map declaration_of) cursor.new result (declaration_at most cursor.old) }
{
    let code = cursor.uleb()?;
    if code == 0 {
        return Ok(None);
    }
    let tag = cursor.uleb()?;
    let _children = cursor.u8()?;
    let attributes = read_attributes(alloc, cursor, most)?;
    Ok(Some(Declaration {
        code,
        abbreviation: Abbreviation { tag, attributes },
    }))
}

/// Reads the attributes up to the pair 0 0. There are at most so many, since each takes two bytes or more.
fn read_attributes(
    alloc: Global,
    cursor: &mut Cursor<'_>,
    most: usize,
) -> Result<Vec<Attribute>, TableFault>
    ensures { TakesTable (λ v. v.items) cursor.new result (attributes_at most [] cursor.old) }
{
    let mut attributes = Vec::new(alloc);
    for _index in 0..most {
        let attribute = read_attribute(cursor)?;
        if is_end(attribute) {
            return Ok(attributes);
        }
        attributes.push(attribute)?;
    }
    Err(TableFault::Field(CursorFault::Cut {
        at: cursor.at() as u64,
    }))
}

/// Reads the next attribute, and the value of one whose form is implicit.
#[tactic(auto, unfolding(crate::specs::Abbreviations::attribute_at))]
fn read_attribute(cursor: &mut Cursor<'_>) -> Result<Attribute, CursorFault>
    ensures { Reads (λ a. a) cursor.new result (attribute_at cursor.old) }
{
    let name = cursor.uleb()?;
    let form = cursor.uleb()?;
    if form == DW_FORM_IMPLICIT_CONST {
        let _value = cursor.sleb()?;
    }
    Ok(Attribute { name, form })
}

/// Whether a name and a form end the list.
fn is_end(attribute: Attribute) -> bool
    ensures { result ≡ ends attribute }
{
    attribute.name == 0 && attribute.form == 0
}
