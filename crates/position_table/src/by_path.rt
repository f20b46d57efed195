ghost use Rattle.std.specs.Prelude.{◌≡◌, ◌∷◌, [], length, IfOk};
ghost use Rattle.import_graph.specs.Nodes.{AreNumbered};
ghost use Rattle.import_graph.specs.Numbers.{item_of};
ghost use Rattle.position_table.specs.Paths.{begins_path, first_of_path};

use import_graph::{Graph, Spliced};
use mac_base::NoMemory;

/// The number of the first entry that begins a file of this path, if there is one.
pub fn locate_path(graph: &Graph<'_>, path: &[u8]) -> Result<Option<u64>, NoMemory>
    ensures { IfOk result (λ found. found ≡ first_of_path path.now graph.now) }
{
    // There are so few entries that their numbers fit, and each file has a path.
    let _count = graph.count();
    let _paths = graph.paths();
    let mut entries = graph.entries()?;
    let mut passed = 0;
    while let Some(entry) = entries.next() {
        if begins_path(graph, entry?, path) {
            return Ok(Some(passed));
        }
        passed += 1;
    }
    Ok(None)
}

/// Whether an entry begins a file of this path.
fn begins_path(graph: &Graph<'_>, entry: Spliced<'_>, path: &[u8]) -> bool
    requires { AreNumbered (length graph.now.paths) (item_of entry ∷ []) }
    ensures { result ≡ begins_path graph.now.paths path.now (item_of entry.entry) }
{
    match entry {
        Spliced::Start { file, .. } => graph.path(file) == path,
        _ => false,
    }
}
