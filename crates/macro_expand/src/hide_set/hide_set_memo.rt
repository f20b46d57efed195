// Hide sets that were made of another set and a name. Those of one name are mostly the same, and then they are shared.
ghost use Rattle.std.specs.Prelude.{◌≡◌, All, IfOk, true};
ghost use Rattle.macro_expand.specs.Marked.{with_name};
ghost use Rattle.macro_expand.specs.States.{name_text, hidden_names};
ghost use Rattle.macro_expand.specs.ParsedMacros.{IsSoundHideSet, IsMore};

use crate::hide_set::set::{
    HideSet, Name, hides, is_listed_alike, no_hides, same_hides, with_name,
};
use std::alloc::{AllocError, Global};

/// The hide set that was last made for a name: with the name, of another set, which may have the name already.
#[derive(Drop)]
pub struct HideSetMemo {
    pub name: Name,
    pub from: HideSet,
    pub with: HideSet,
    pub had: bool,
}

/// The set made of this set and this name.
fn memo_of(alloc: Global, name: &Name, set: &HideSet) -> Result<HideSetMemo, AllocError>
    ensures made { IfOk result IsSoundHideSet }
    ensures with { IfOk result (λ made. hidden_names made.with ≡ with_name (name_text name.now) (hidden_names set.now)) }
{
    let with = with_name(alloc, name.as_slice(), set)?;
    Ok(HideSetMemo {
        name: name.same()?,
        from: same_hides(set)?,
        with,
        had: hides(set, name.as_slice()),
    })
}

/// Remembers a set for one name more, and answers its number.
pub fn add_name(
    alloc: Global,
    sets: &mut Vec<HideSetMemo>,
    name: &Name,
) -> Result<usize, AllocError>
    requires { All IsSoundHideSet sets.old.items }
    ensures { All IsSoundHideSet sets.new.items }
{
    let number = sets.len();
    let made = memo_of(alloc, name, &no_hides())?;
    sets.push(made)?;
    Ok(number)
}

/// Whether this was made of the set and the name.
fn serves(made: &HideSetMemo, name: &Name, set: &HideSet) -> bool
    requires { IsSoundHideSet made.now }
    ensures with { result ≡ true → hidden_names made.now.with ≡ with_name (name_text name.now) (hidden_names set.now) }
    ensures had { result ≡ true → made.now.had ≡ hidden_names set.now (name_text name.now) }
{
    made.name.as_slice() == name.as_slice() && is_listed_alike(&made.from, set)
}

/// The set with the name more. It is remembered as the last one that was made for the name of this number.
pub fn hide_name(
    alloc: Global,
    sets: &mut Vec<HideSetMemo>,
    number: usize,
    name: &Name,
    set: &HideSet,
) -> Result<HideSet, AllocError>
    requires { All IsSoundHideSet sets.old.items }
    ensures made { All IsSoundHideSet sets.new.items }
    ensures set { IfOk result (λ more. hidden_names more ≡ with_name (name_text name.now) (hidden_names set.now)) }
{
    if number >= sets.len() {
        let more = with_name(alloc, name.as_slice(), set)?;
        return Ok(more);
    }
    let last = &sets[number];
    if serves(last, name, set) {
        let same = same_hides(&last.with)?;
        return Ok(same);
    }
    let made = memo_of(alloc, name, set)?;
    let same = same_hides(&made.with)?;
    sets[number] = made;
    Ok(same)
}

/// The set with the name more, unless it has the name already.
pub fn hide_once(
    alloc: Global,
    sets: &mut Vec<HideSetMemo>,
    number: usize,
    name: &Name,
    set: &HideSet,
) -> Result<Option<HideSet>, AllocError>
    requires { All IsSoundHideSet sets.old.items }
    ensures made { All IsSoundHideSet sets.new.items }
    ensures set { IfOk result (λ more. IsMore more (name_text name.now) (hidden_names set.now)) }
{
    if number < sets.len() {
        let last = &sets[number];
        if serves(last, name, set) {
            if last.had {
                return Ok(None);
            }
            let same = same_hides(&last.with)?;
            return Ok(Some(same));
        }
    }
    if hides(set, name.as_slice()) {
        return Ok(None);
    }
    let more = hide_name(alloc, sets, number, name, set)?;
    Ok(Some(more))
}
