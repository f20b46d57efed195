ghost use Rattle.std.specs.Prelude.{◌≡◌, ◌⊎◌, IfOk, IfErr, Ok, Err};
ghost use Rattle.mac_base.specs.SectionBytes.{bytes_of};
ghost use Rattle.import_graph.specs.declared.fault.FileFault.TheVariants.{NoMemory as RanOut};
ghost use Rattle.import_graph.specs.Graph.{IsGraphOf, IsFirstFault};
ghost use Rattle.import_graph.specs.Walk.{RootWalk};
ghost use Rattle.import_graph.specs.Progress.{RootWalked};

use crate::fault::FileFault;
use crate::files::FileLists;
use crate::graph::Graph;
use crate::meaning::Lookup;
use crate::node::NodeId;
use crate::unit::{MOST_ENTRIES, fault};
use crate::walk::{Walk, Walked, count_at};
use info_roots::Root;
use mac_base::{Sections, Steps};
use std::alloc::Global;
use std::sync::ledger::Ledger;
use string_sections::OffsetsView;
use unit_header::UnitKind;

impl<'a> Graph<'a> {
    /// Reads the units of a root, or answers the first fault in the order of a walk that enters each unit at its first
    /// import. `TooManyEntries` comes behind all others, where the root stands for more than 16,777,216 entries.
    pub fn read<L: Ledger>(
        alloc: Global,
        s: &Sections<'a>,
        root: &Root,
        steps: &mut Steps<L>,
    ) -> Result<Graph<'a>, FileFault>
        ensures ok { IfOk result (λ graph. IsGraphOf (bytes_of s.now) root.now graph) }
        ensures err { IfErr result (λ fault. (fault ≡ RanOut) ⊎ IsFirstFault (bytes_of s.now) root.now fault) }
    {
        let Walked { nodes, files } = walk(alloc, s, root, steps)?;
        let last = NodeId {
            index: nodes.len().saturating_sub(1),
        };
        let count = count_at(nodes.as_slice(), last);
        if count > MOST_ENTRIES {
            return Err(fault(root.macros, UnitKind::TooManyEntries));
        }
        Ok(Graph::of(alloc, nodes, count, files.into_paths()))
    }
}

/// Walks the units of a root, whose own line table is read first.
fn walk<'a, L: Ledger>(
    alloc: Global,
    s: &Sections<'a>,
    root: &Root,
    steps: &mut Steps<L>,
) -> Result<Walked<'a>, FileFault>
    ensures ok { IfOk result (λ walked. RootWalked (bytes_of s.now) root.now walked.nodes.items walked.files.paths) }
    ensures err { IfErr result (λ fault. (fault ≡ RanOut) ⊎ RootWalk (bytes_of s.now) root.now (Err fault)) }
{
    let mut files = FileLists::new(alloc, s);
    let root_files = files.of_root(alloc, root.line)?;
    if root.macros >= s.macros.len() as u64 {
        return Err(fault(root.macros, UnitKind::ImportRange));
    }
    let lookup = Lookup {
        macros: s.macros,
        strs: s.strs,
        offsets: OffsetsView::new(s.str_offsets, root.wide),
        base: root.str_base,
    };
    let walk = Walk::start(alloc, lookup, files, root_files, root.macros)?;
    let walked = walk.finish(steps)?;
    Ok(walked)
}
