// Hide sets: the names that are not replaced in a token (C17 6.10.3.4).
ghost use Rattle.std.specs.Prelude.{◌≡◌, ◌++◌, IfOk, true};
ghost use Rattle.macro_expand.specs.Marked.{no_names, with_name, union, intersection};
ghost use Rattle.macro_expand.specs.States.{members, name_text, hidden_names, names_left, covers_names, missing_names, common_names, AreAmong};

use crate::hide_set::name_iter::{NameIter, are_same, next_name, none_left};
use crate::hide_set::names::Names;
use mac_base::Bytes;
use std::alloc::{AllocError, Global};
use std::rc::Rc;

/// A name of a macro, which is shared.
#[derive(Drop)]
pub struct Name {
    text: Rc<Bytes>,
}

impl Name {
    /// A name of its own with this text.
    pub fn new(alloc: Global, text: Bytes) -> Result<Name, AllocError>
        ensures { IfOk result (λ name. name_text name ≡ text) }
    {
        Ok(Name {
            text: Rc::new(alloc, text)?,
        })
    }

    /// The text.
    pub fn as_slice(&self) -> &[u8]
        ensures { result.now ≡ name_text self.now }
    {
        self.text.as_ref().as_slice()
    }

    /// The same name.
    pub fn same(&self) -> Result<Name, AllocError>
        ensures { IfOk result (λ same. name_text same ≡ name_text self.now) }
    {
        Ok(Name {
            text: self.text.clone()?,
        })
    }
}

/// A hide set. An empty one takes no memory.
#[derive(Drop)]
pub struct HideSet {
    pub names: Option<Rc<Names>>,
}

/// The names of the set.
fn listed(set: &HideSet) -> NameIter<'_>
    ensures { members (names_left result) ≡ hidden_names set.now }
{
    match &set.names {
        None => none_left(),
        Some(names) => names.as_ref().left(),
    }
}

/// Whether the name is one of these.
fn is_among(names: NameIter, name: &[u8]) -> bool
    ensures { result ≡ members (names_left names.entry) name.now }
{
    let mut left = names;
    while let Some(known) = next_name(&mut left) {
        if known == name {
            return true;
        }
    }
    false
}

/// The set with no name.
pub fn no_hides() -> HideSet
    ensures { hidden_names result ≡ no_names }
{
    HideSet { names: None }
}

/// Whether the set has the name.
pub fn hides(set: &HideSet, name: &[u8]) -> bool
    ensures { result ≡ hidden_names set.now name.now }
{
    is_among(listed(set), name)
}

/// The same set.
pub fn same_hides(set: &HideSet) -> Result<HideSet, AllocError>
    ensures { IfOk result (λ same. hidden_names same ≡ hidden_names set.now) }
{
    match &set.names {
        None => Ok(no_hides()),
        Some(names) => Ok(HideSet {
            names: Some(names.clone()?),
        }),
    }
}

/// The set of these names.
fn set_of(alloc: Global, names: Names) -> Result<HideSet, AllocError>
    ensures { IfOk result (λ set. hidden_names set ≡ members names) }
{
    Ok(HideSet {
        names: Some(Rc::new(alloc, names)?),
    })
}

/// A copy of the names of the set.
fn names_of(alloc: Global, set: &HideSet) -> Result<Names, AllocError>
    ensures { IfOk result (λ names. members names ≡ hidden_names set.now) }
{
    match &set.names {
        None => Ok(Names::new(alloc)),
        Some(names) => names.as_ref().copy(),
    }
}

/// The set with a name more.
pub fn with_name(alloc: Global, name: &[u8], set: &HideSet) -> Result<HideSet, AllocError>
    ensures { IfOk result (λ more. hidden_names more ≡ with_name name.now (hidden_names set.now)) }
{
    let names = names_of(alloc, set)?;
    let all = names.with(name)?;
    let more = set_of(alloc, all)?;
    Ok(more)
}

/// Whether two sets are kept as the same list. Where they are, they are the same set.
pub fn is_listed_alike(a: &HideSet, b: &HideSet) -> bool
    ensures { result ≡ true → hidden_names a.now ≡ hidden_names b.now }
{
    are_same(&listed(a), &listed(b))
}

/// Whether the set has all of the names.
fn covers(set: &HideSet, names: NameIter) -> bool
    ensures { result ≡ covers_names (hidden_names set.now) (names_left names.entry) }
{
    let mut left = names;
    while let Some(name) = next_name(&mut left) {
        if !hides(set, name) {
            return false;
        }
    }
    true
}

/// Whether the first set is seen to have all names of the second.
fn has_all(a: &HideSet, b: &HideSet) -> bool
    ensures { result ≡ true → AreAmong (hidden_names b.now) (hidden_names a.now) }
{
    is_listed_alike(a, b) || covers(a, listed(b))
}

/// The names, and after them those of the others that the set does not have.
fn joined_names(names: Names, set: &HideSet, others: NameIter) -> Result<Names, AllocError>
    ensures { IfOk result (λ all. all ≡ names ++ missing_names (hidden_names set.now) (names_left others.entry)) }
{
    let mut all = names;
    let mut left = others;
    while let Some(other) = next_name(&mut left) {
        if !hides(set, other) {
            all = all.with(other)?;
        }
    }
    Ok(all)
}

/// The names of either set.
pub fn union(alloc: Global, a: &HideSet, b: &HideSet) -> Result<HideSet, AllocError>
    ensures { IfOk result (λ set. hidden_names set ≡ union (hidden_names a.now) (hidden_names b.now)) }
{
    if has_all(a, b) {
        let same = same_hides(a)?;
        return Ok(same);
    }
    let names = names_of(alloc, a)?;
    let all = joined_names(names, a, listed(b))?;
    let set = set_of(alloc, all)?;
    Ok(set)
}

/// Those of the names that the set has too.
fn common_names(alloc: Global, names: NameIter, set: &HideSet) -> Result<Names, AllocError>
    ensures { IfOk result (λ all. all ≡ common_names (names_left names.entry) (hidden_names set.now)) }
{
    let mut all = Names::new(alloc);
    let mut left = names;
    while let Some(name) = next_name(&mut left) {
        if hides(set, name) {
            all = all.with(name)?;
        }
    }
    Ok(all)
}

/// The names that both sets have.
pub fn intersection(alloc: Global, a: &HideSet, b: &HideSet) -> Result<HideSet, AllocError>
    ensures { IfOk result (λ set. hidden_names set ≡ intersection (hidden_names a.now) (hidden_names b.now)) }
{
    if has_all(b, a) {
        let same = same_hides(a)?;
        return Ok(same);
    }
    let all = common_names(alloc, listed(a), b)?;
    let set = set_of(alloc, all)?;
    Ok(set)
}
