// The definitions of a table, each read from its text once.
ghost use Rattle.std.specs.Prelude.{◌≡◌, IfOk, OnOk, OnErr, Some, None};
ghost use Rattle.std.specs.Option.{option_map, option_copied};
ghost use Rattle.std.specs.Map.{lookup};
ghost use Rattle.std.specs.BTreeMap.{insert_entry};
ghost use Rattle.std.specs.Ordering.{is_eq, nat_cmp};
ghost use Rattle.std.specs.Cmp.Lexicographic.{slice_cmp};
ghost use Rattle.macro_table.specs.Texts.{def_of_text};
ghost use Rattle.macro_expand.specs.Marked.{with_name};
ghost use Rattle.macro_expand.specs.States.{name_text, hidden_names};
ghost use Rattle.macro_expand.specs.Macros.{macros_of, sound_def};
ghost use Rattle.macro_expand.specs.ParsedMacros.{parsed_def, parsed_value, def_value, IsMeaning, IsMore};

use crate::hide_set::hide_set_memo::{HideSetMemo, add_name, hide_name, hide_once};
use crate::hide_set::set::{HideSet, Name};
use crate::rescan::lookup_memo::{LookupMemo, lookup_memo_of, make_places, put_lookup_memo};
use mac_base::{Bytes, NoMemory};
use macro_table::{Def, Table, TextFault, def_of_text};
use std::alloc::{AllocError, Global};
use std::collections::BTreeMap;
use std::marker::Model;
use std::rc::Rc;

/// A name with a text in the table: its definition, or none where the text is no definition, and the number of the hide
/// set that is remembered for it.
#[derive(Drop)]
pub struct ParsedMacro {
    pub name: Name,
    pub def: Option<Rc<Def>>,
    pub number: usize,
}

/// The same name and definition.
fn same_macro(known: &ParsedMacro) -> Result<ParsedMacro, NoMemory>
    ensures { IfOk result (λ same. parsed_value same ≡ parsed_value known.now) }
{
    let name = known.name.same()?;
    let number = known.number;
    match &known.def {
        None => Ok(ParsedMacro {
            name,
            def: None,
            number,
        }),
        Some(def) => Ok(ParsedMacro {
            name,
            def: Some(def.clone()?),
            number,
        }),
    }
}

/// The same, of a name that may stand for nothing.
fn same_meaning(known: &Option<ParsedMacro>) -> Result<Option<ParsedMacro>, NoMemory>
    ensures { IfOk result (λ same. option_map parsed_value same ≡ option_map parsed_value known.now) }
{
    match known {
        None => Ok(None),
        Some(known) => Ok(Some(same_macro(known)?)),
    }
}

/// The definition that a text is.
fn read_def(alloc: Global, text: &[u8]) -> Result<Option<Rc<Def>>, NoMemory>
    ensures { IfOk result (λ def. option_map def_value def ≡ sound_def (def_of_text text.now)) }
{
    match def_of_text(alloc, text) {
        Ok(def) => Ok(Some(Rc::new(alloc, def)?)),
        Err(TextFault::NoMemory) => Err(NoMemory),
        Err(TextFault::Lex(_)) => Ok(None),
        Err(TextFault::Def(_)) => Ok(None),
    }
}

/// What is remembered of the name.
fn recall<'a>(known: &'a BTreeMap<Vec<u8>, ParsedMacro>, name: &[u8]) -> Option<&'a ParsedMacro>
    ensures { option_copied result ≡ lookup (λ key. is_eq (slice_cmp nat_cmp name.now key.items)) known.now.entries }
{
    known.get(name)
}

/// Remembers what a name stands for.
fn remember(
    known: &mut BTreeMap<Vec<u8>, ParsedMacro>,
    name: Vec<u8>,
    one: ParsedMacro,
) -> Result<(), NoMemory>
    ensures ok { OnOk result (known.new.entries ≡ insert_entry (λ a b. slice_cmp nat_cmp a.items b.items) known.old.entries name one) }
    ensures err { OnErr result (known.new.entries ≡ known.old.entries) }
{
    match known.insert(name, one) {
        Ok(_) => Ok(()),
        Err(_) => Err(NoMemory),
    }
}

/// A table, the definitions that were read from it, names that were looked up, and the hide sets that were last made for
/// names. Contracts see the table.
#[derive(Drop)]
pub struct Definitions<'a> {
    table: &'a Table,
    known: BTreeMap<Vec<u8>, ParsedMacro>,
    recent: Vec<Option<LookupMemo>>,
    sets: Vec<HideSetMemo>,
}

impl<'a> Model for Definitions<'a> {
    ghost use Rattle.std.specs.Prelude.{ℕ, All};
    ghost use Rattle.macro_table.specs.Tables.{TableOf};
    ghost use Rattle.macro_table.specs.Codes.{coded_table};
    ghost use Rattle.macro_expand.specs.ParsedMacros.{AreParsed, IsSoundHideSet, IsSoundLookup};

    ghost Value = { TableOf ℕ };

    ghost coded = { coded_table };

    ghost view = { λ d. d.table.now };

    ghost invariant = { λ d. AreParsed d.table.now d.known.entries × All IsSoundHideSet d.sets.items × All (IsSoundLookup d.table.now) d.recent.items };
}

impl<'a> Definitions<'a> {
    /// None was read yet.
    pub fn new(alloc: Global, table: &'a Table) -> Definitions<'a>
        ensures { result ≡ table.now }
    {
        Definitions {
            table,
            known: BTreeMap::new(alloc),
            recent: Vec::new(alloc),
            sets: Vec::new(alloc),
        }
    }

    /// What the name stands for, with its name.
    pub fn look_up(&mut self, alloc: Global, name: &[u8]) -> Result<Option<ParsedMacro>, NoMemory>
        ensures found { IfOk result (λ known. IsMeaning known name.now (macros_of self.old name.now)) }
        ensures kept { self.new ≡ self.old }
    {
        if let Some(one) = lookup_memo_of(self.recent.as_slice(), name) {
            let same = same_meaning(&one.known)?;
            return Ok(same);
        }
        let known = self.read(alloc, name)?;
        let one = LookupMemo {
            name: Vec::from_slice(alloc, name)?,
            known: same_meaning(&known)?,
        };
        make_places(alloc, &mut self.recent)?;
        put_lookup_memo(&mut self.recent, one);
        Ok(known)
    }

    /// The same, from the definitions that were read, and else from the table.
    #[inline(never)]
    fn read(&mut self, alloc: Global, name: &[u8]) -> Result<Option<ParsedMacro>, NoMemory>
        ensures found { IfOk result (λ known. IsMeaning known name.now (macros_of self.old name.now)) }
        ensures kept { self.new ≡ self.old }
    {
        if let Some(known) = recall(&self.known, name) {
            let same = same_macro(known)?;
            return Ok(Some(same));
        }
        let Some(entry) = self.table.get(name) else {
            return Ok(None);
        };
        let def = read_def(alloc, entry.text.as_slice())?;
        let own = Name::new(alloc, Bytes::from_slice(alloc, name)?)?;
        let number = add_name(alloc, &mut self.sets, &own)?;
        let known = ParsedMacro {
            name: own,
            def,
            number,
        };
        let same = same_macro(&known)?;
        remember(&mut self.known, Vec::from_slice(alloc, name)?, known)?;
        Ok(Some(same))
    }

    /// The set with the name of this number more, unless it has the name already.
    pub fn hide_once(
        &mut self,
        alloc: Global,
        number: usize,
        name: &Name,
        set: &HideSet,
    ) -> Result<Option<HideSet>, AllocError>
        ensures set { IfOk result (λ more. IsMore more (name_text name.now) (hidden_names set.now)) }
        ensures kept { self.new ≡ self.old }
    {
        hide_once(alloc, &mut self.sets, number, name, set)
    }

    /// The set with the name of this number more.
    pub fn hide_name(
        &mut self,
        alloc: Global,
        number: usize,
        name: &Name,
        set: &HideSet,
    ) -> Result<HideSet, AllocError>
        ensures set { IfOk result (λ more. hidden_names more ≡ with_name (name_text name.now) (hidden_names set.now)) }
        ensures kept { self.new ≡ self.old }
    {
        hide_name(alloc, &mut self.sets, number, name, set)
    }
}
