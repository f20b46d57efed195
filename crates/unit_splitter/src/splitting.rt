ghost use Rattle.std.specs.Prelude.{◌≡◌, ◌∷◌, ◌++◌, [], map, IfOk, OnOk};
ghost use Rattle.unit_splitter.specs.Split.{entries_as, split_of};
ghost use Rattle.unit_splitter.specs.declared.root.RootEntry.TheVariants.{Own};

use crate::comparison::copy_event;
use crate::cutting::{depth_after, part_length};
use crate::known_pieces::KnownPieces;
use crate::pieces::Split;
use crate::root::{RootEntries, RootEntry};
use mac_base::{Event, Events, NoMemory};
use std::alloc::Global;

/// Splits the events of a translation unit into a root and the pieces that it imports (DWARF 5, 6.3.2.3). Each longest
/// run of two or more definitions and undefinitions inside an included file becomes the import of a piece, and equal
/// runs that of one piece. There are at most 16,384 pieces, in order of first use; further runs stay in the root.
pub fn split(alloc: Global, events: &Events) -> Result<Split, NoMemory>
    ensures { IfOk result (λ made. made ≡ split_of events.now.list) }
{
    let mut known = KnownPieces::new(alloc);
    let mut root = RootEntries::new(alloc);
    let mut rest = events.list.as_slice();
    let mut depth = 0;
    while let Some((event, _)) = rest.split_first() {
        let (part, after) = rest.split_at(part_length(depth, rest));
        let (next, number) = known.with_part(part)?;
        known = next;
        push_part(&mut root, number, part)?;
        depth = depth_after(depth, event);
        rest = after;
    }
    Ok(Split {
        root,
        pieces: known.into_pieces(),
    })
}

/// Appends what stands for a part: the import of the piece that it is, or its events.
fn push_part(root: &mut RootEntries, number: Option<u32>, part: &[Event]) -> Result<(), NoMemory>
    ensures { OnOk result (root.new ≡ root.old ++ entries_as number part.now) }
{
    match number {
        Some(number) => {
            root.push(RootEntry::Import(number))?;
            Ok(())
        }
        None => push_events(root, part),
    }
}

/// Appends events as they are.
fn push_events(root: &mut RootEntries, part: &[Event]) -> Result<(), NoMemory>
    ensures { OnOk result (root.new ≡ root.old ++ map (λ event. Own event) part.now) }
{
    for event in part {
        root.push(RootEntry::Own(copy_event(event)?))?;
    }
    Ok(())
}
