// Names that were looked up, and what they stand for. A name is remembered at its own place, until another name takes it.
ghost use Rattle.std.specs.Prelude.{◌≡◌, ◌<◌, ℕ, All, IfOk, IfSome, Some};
ghost use Rattle.macro_table.specs.Tables.{TableOf};
ghost use Rattle.macro_expand.specs.Macros.{macros_of};
ghost use Rattle.macro_expand.specs.ParsedMacros.{IsMeaning, IsSoundLookup};

use crate::rescan::parsed_macro::ParsedMacro;
use std::alloc::{AllocError, Global};

/// How many places there are.
const PLACES: usize = 64;

/// A name, and what it stands for.
#[derive(Drop)]
pub struct LookupMemo {
    pub name: Vec<u8>,
    pub known: Option<ParsedMacro>,
}

/// The place of a name.
fn place_of(name: &[u8]) -> usize {
    let mut sum: usize = 0;
    for byte in name {
        sum = sum.wrapping_mul(31).wrapping_add(*byte as usize);
    }
    sum % PLACES
}

/// What is in the place of the name, where it is of this name.
pub fn lookup_memo_of<'a>(recent: &'a [Option<LookupMemo>], name: &[u8]) -> Option<&'a LookupMemo>
    ensures { (table : TableOf ℕ) → All (IsSoundLookup table) recent.now → IfSome result (λ r. IsMeaning r.now.known name.now (macros_of table name.now)) }
{
    match recent.get(place_of(name)) {
        Some(Some(one)) => if one.name.as_slice() == name {
            Some(one)
        } else {
            None
        },
        Some(None) => None,
        None => None,
    }
}

/// Places with no name in them.
fn free_places(alloc: Global) -> Result<Vec<Option<LookupMemo>>, AllocError>
    ensures { (table : TableOf ℕ) → IfOk result (λ recent. All (IsSoundLookup table) recent.items) }
{
    let mut recent = Vec::with_capacity(alloc, PLACES)?;
    for _ in 0..PLACES {
        recent.push(None)?;
    }
    Ok(recent)
}

/// Makes the places, where there are none.
pub fn make_places(alloc: Global, recent: &mut Vec<Option<LookupMemo>>) -> Result<(), AllocError>
    ensures { (table : TableOf ℕ) → All (IsSoundLookup table) recent.old.items → All (IsSoundLookup table) recent.new.items }
{
    if recent.is_empty() {
        *recent = free_places(alloc)?;
    }
    Ok(())
}

/// Remembers a name, in the place of what stood there.
pub fn put_lookup_memo(recent: &mut Vec<Option<LookupMemo>>, one: LookupMemo)
    ensures { (table : TableOf ℕ) → All (IsSoundLookup table) recent.old.items → IsSoundLookup table (Some one) → All (IsSoundLookup table) recent.new.items }
{
    let place = place_of(one.name.as_slice());
    if place < recent.len() {
        recent[place] = Some(one);
    }
}
