ghost use Rattle.std.specs.Prelude.{◌≡◌, ◌+◌, ◌<◌, ◌≤◌, ◌^◌, ◌==◌, ◌&&◌, drop, length, position, IfOk, IfSome};
ghost use Rattle.mac_base.specs.Items.{is_start, starts_at, depth_behind, first_inside};
ghost use Rattle.import_graph.specs.Numbers.{item_of};
ghost use Rattle.import_graph.specs.Graph.{most_items};
ghost use Rattle.position_table.specs.Answers.{IsSpotOf};

use crate::fault::PosFault;
use crate::spot::Spot;
use import_graph::{Entries, Graph, Spliced};
use mac_base::NoMemory;

/// The line in the first instance of a file that a chain of lines leads to: the first file that begins at all, and then
/// for each of the lines the first one that begins directly in the file before and is included in that line. Where one
/// is missing, how many there are.
pub fn locate_chain(graph: &Graph<'_>, lines: &[u32], line: u32) -> Result<Spot, PosFault>
    ensures { IsSpotOf graph.now.items lines.now line result }
{
    // There are so few entries that their numbers fit.
    let _count = graph.count();
    let mut entries = graph.entries()?;
    let Some(mut start) = first_start(&mut entries)? else {
        return Err(PosFault::NoSuchPosition { depth: 0 });
    };
    let mut depth = 0;
    for included in lines {
        depth += 1;
        let Some(passed) = first_start_at(&mut entries, u64::from(*included))? else {
            return Err(PosFault::NoSuchPosition { depth });
        };
        start += 1 + passed;
    }
    Ok(Spot { start, line })
}

/// The number of the first entry that begins a file, from the next entry on. Leaves the entries behind it.
fn first_start(entries: &mut Entries<'_>) -> Result<Option<u64>, NoMemory>
    requires { length entries.old ≤ most_items }
    ensures found { IfOk result (λ found. found ≡ position is_start entries.old) }
    ensures behind { IfOk result (λ found. IfSome found (λ passed. (entries.new ≡ drop (passed + 1) entries.old) × (passed < length entries.old))) }
{
    let mut passed = 0;
    while let Some(entry) = entries.next() {
        if let Spliced::Start { .. } = entry? {
            return Ok(Some(passed));
        }
        passed += 1;
    }
    Ok(None)
}

/// The number of the first entry that begins a file directly in this one and is included in this line, from the next
/// entry on. Leaves the entries behind it.
fn first_start_at(entries: &mut Entries<'_>, line: u64) -> Result<Option<u64>, NoMemory>
    requires { length entries.old ≤ most_items }
    ensures found { IfOk result (λ found. found ≡ first_inside (starts_at line) entries.old 0) }
    ensures behind { IfOk result (λ found. IfSome found (λ passed. (entries.new ≡ drop (passed + 1) entries.old) × (passed < length entries.old))) }
{
    let mut passed = 0;
    let mut depth = 0;
    while let Some(entry) = entries.next() {
        let entry = entry?;
        if starts_here(entry, line, depth) {
            return Ok(Some(passed));
        }
        let Some(inner) = depth_behind(entry, depth) else {
            return Ok(None);
        };
        depth = inner;
        passed += 1;
    }
    Ok(None)
}

/// Whether an entry begins a file directly in this one, and is included in this line.
fn starts_here(entry: Spliced<'_>, line: u64, depth: u64) -> bool
    ensures { result ≡ (depth == 0 && starts_at line (item_of entry.entry)) }
{
    match entry {
        Spliced::Start { line: included, .. } => depth == 0 && included == line,
        _ => false,
    }
}

/// How many files that began in this one are open behind an entry; none where the entry ends this one.
pub fn depth_behind(entry: Spliced<'_>, depth: u64) -> Option<u64>
    requires { depth + 1 < 2 ^ 64 }
    ensures { result ≡ depth_behind (item_of entry.entry) depth }
{
    match entry {
        Spliced::Start { .. } => Some(depth + 1),
        Spliced::End => depth.checked_sub(1),
        _ => Some(depth),
    }
}
