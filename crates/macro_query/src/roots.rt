ghost use Rattle.std.specs.Prelude.{◌≡◌, ◌⊎◌, ◌<◌, IfOk, IfErr, Ok, Err};
ghost use Rattle.mac_base.specs.SectionBytes.{bytes_of};
ghost use Rattle.info_roots.specs.declared.fault.InfoFault.{InfoFault};
ghost use Rattle.info_roots.specs.Roots.{roots_in};
ghost use Rattle.import_graph.specs.declared.fault.FileFault.{FileFault};
ghost use Rattle.mac_base.specs.ItemLines.{path_in};
ghost use Rattle.import_graph.specs.Graph.{IsGraphOf, IsFirstFault};
ghost use Rattle.macro_query.specs.declared.fault.QueryFault.TheVariants.{Info as BadInfo, NoMemory as RanOut};
ghost use Rattle.macro_query.specs.Roots.{file_fault};

use crate::fault::QueryFault;
use import_graph::Graph;
use info_roots::{Root, read_roots};
use mac_base::{Sections, Steps};
use std::alloc::Global;
use std::marker::Brand;
use std::sync::ledger::{Blank, Ledger};

/// The roots of a file, or the first fault of `.debug_info`.
pub fn roots_of(alloc: Global, s: &Sections<'_>) -> Result<Vec<Root>, QueryFault>
    ensures ok { IfOk result (λ roots. roots_in (bytes_of s.now) ≡ Ok roots.items) }
    ensures err { IfErr result (λ fault. (fault ≡ RanOut) ⊎ ((info : InfoFault) × (fault ≡ BadInfo info) × (roots_in (bytes_of s.now) ≡ Err info))) }
{
    Ok(read_roots(alloc, s)?)
}

/// The macro information of a root, or its first fault.
pub fn graph_of<'a>(alloc: Global, s: &Sections<'a>, root: &Root) -> Result<Graph<'a>, QueryFault>
    ensures ok { IfOk result (λ graph. IsGraphOf (bytes_of s.now) root.now graph) }
    ensures err { IfErr result (λ fault. (fault ≡ RanOut) ⊎ ((file : FileFault) × (fault ≡ file_fault file) × IsFirstFault (bytes_of s.now) root.now file)) }
{
    counted::<Brand>(alloc, s, root, Blank::new(1))
}

/// The same, where a step is taken for each entry that is read.
fn counted<'a, L: Ledger>(
    alloc: Global,
    s: &Sections<'a>,
    root: &Root,
    blank: Blank,
) -> Result<Graph<'a>, QueryFault>
    requires name { blank.name ≡ L.name }
    requires parts { blank.parts ≡ L.parts }
    requires some { 0 < L.parts }
    ensures ok { IfOk result (λ graph. IsGraphOf (bytes_of s.now) root.now graph) }
    ensures err { IfErr result (λ fault. (fault ≡ RanOut) ⊎ ((file : FileFault) × (fault ≡ file_fault file) × IsFirstFault (bytes_of s.now) root.now file)) }
{
    Ok(Graph::read(alloc, s, root, &mut Steps::<L>::new(blank))?)
}

/// The path of a number, which is empty where there is none.
pub fn path_of<'g>(graph: &'g Graph<'_>, file: u32) -> &'g [u8]
    ensures { result.now ≡ path_in graph.now.paths file }
{
    if file < graph.paths() {
        graph.path(file)
    } else {
        &[]
    }
}
