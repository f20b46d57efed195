ghost use Rattle.std.specs.Prelude.{◌≡◌, ◌≤◌, [], length, IfOk, IfErr, OnOk};
ghost use Rattle.mac_base.specs.SectionBytes.{bytes_of};
ghost use Rattle.info_roots.specs.Faults.{Answers, IsFaultOf};
ghost use Rattle.info_roots.specs.Roots.{roots_in, root_at, with_root, unit_read};

use crate::abbreviation::Abbreviations;
use crate::fault::{InfoFault, InfoKind};
use crate::root::Root;
use crate::unit::read_unit;
use mac_base::{Cursor, Extent, Sections, extent_at};
use std::alloc::Global;

/// How many roots a file may have.
const MOST_ROOTS: usize = 65536;

/// The roots of a file in the order of its units, or the first fault of `.debug_info`.
pub fn read_roots(alloc: Global, s: &Sections<'_>) -> Result<Vec<Root>, InfoFault>
    ensures { Answers (λ roots. roots.items) result (roots_in (bytes_of s.now)) }
{
    let mut roots = Vec::new(alloc);
    let mut abbreviations = Abbreviations::new(s.abbrevs);
    let mut at = 0;
    // Each unit takes a byte or more.
    for _index in 0..s.info.len() {
        if at == s.info.len() {
            return Ok(roots);
        }
        at = read_next(alloc, s, at, &mut abbreviations, &mut roots)?;
    }
    Ok(roots)
}

/// Reads the unit at `at`, puts its root at the end, and answers where the next unit begins.
fn read_next<'a>(
    alloc: Global,
    s: &Sections<'a>,
    at: usize,
    abbreviations: &mut Abbreviations<'a>,
    roots: &mut Vec<Root>,
) -> Result<usize, InfoFault>
    requires { abbreviations.old.section ≡ s.now.abbrevs.now }
    ensures kept { abbreviations.new.section ≡ abbreviations.old.section }
    ensures ok { IfOk result (λ next. unit_read (bytes_of s.now) at roots.old.items ≡ Ok (next, roots.new.items)) }
    ensures err { IfErr result (λ fault. IsFaultOf (unit_read (bytes_of s.now) at roots.old.items) fault) }
{
    let extent = extent_at(s.info, at)?;
    let root = read_root(alloc, s, at, extent, abbreviations)?;
    push_root(roots, at, root)?;
    Ok(extent.end)
}

/// The root of the unit in this extent, if it has one.
fn read_root<'a>(
    alloc: Global,
    s: &Sections<'a>,
    at: usize,
    extent: Extent,
    abbreviations: &mut Abbreviations<'a>,
) -> Result<Option<Root>, InfoFault>
    requires section { abbreviations.old.section ≡ s.now.abbrevs.now }
    requires order { extent.start ≤ extent.end }
    requires within { extent.end ≤ length s.now.info.now }
    ensures root { Answers (λ root. root) result (root_at (bytes_of s.now) at extent) }
    ensures kept { abbreviations.new.section ≡ abbreviations.old.section }
{
    let mut cursor = Cursor::new(&s.info[..extent.end], extent.start);
    read_unit(alloc, s, at as u64, extent.wide, &mut cursor, abbreviations)
}

/// Puts the root of the unit at `at` at the end, if it has one. `TooManyRoots` where there are as many as there may be.
fn push_root(roots: &mut Vec<Root>, at: usize, root: Option<Root>) -> Result<(), InfoFault>
    ensures ok { OnOk result (with_root at roots.old.items root ≡ Ok roots.new.items) }
    ensures err { IfErr result (λ fault. IsFaultOf (with_root at roots.old.items root) fault) }
{
    let Some(root) = root else {
        return Ok(());
    };
    if roots.len() == MOST_ROOTS {
        return Err(InfoFault::new(at as u64, InfoKind::TooManyRoots));
    }
    roots.push(root)?;
    Ok(())
}
