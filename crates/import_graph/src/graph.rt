ghost use Rattle.std.specs.Prelude.{◌≡◌, ◌≤◌, ◌<◌, ◌^◌, length, IfOk};
ghost use Rattle.import_graph.specs.Graph.{most_items};
ghost use Rattle.import_graph.specs.Nodes.{AreOrdered, AreNumbered, root_items};
ghost use Rattle.mac_base.specs.ItemLines.{path_in};

use crate::entries::Entries;
use crate::node::{Node, NodeId};
use mac_base::{Bytes, NoMemory};
use std::alloc::Global;
use std::marker::Model;

/// The units that a root's macro information stands in, each once (DWARF 5, 6.3).
#[derive(Drop)]
pub struct Graph<'a> {
    alloc: Global,
    /// Each unit stands behind those that it imports, so that the root's is the last.
    nodes: Vec<Node<'a>>,
    count: u64,
    paths: Vec<Bytes>,
}

impl<'a> Model for Graph<'a> {
    ghost use Rattle.std.specs.Prelude.{◌≡◌, ◌≤◌, ◌<◌, ◌^◌, length};
    ghost use Rattle.import_graph.specs.Graph.{GraphValue, most_items};
    ghost use Rattle.import_graph.specs.Nodes.{AreOrdered, AreNumbered, root_items};

    ghost Value = { GraphValue };

    ghost view = { λ g. record { items = root_items g.nodes.items; paths = g.paths.items } };

    ghost invariant = { λ g. AreOrdered 0 g.nodes.items × AreNumbered (length g.paths.items) (root_items g.nodes.items) ×
        (g.count ≡ length (root_items g.nodes.items)) × (length (root_items g.nodes.items) ≤ most_items) × (length g.paths.items < 2 ^ 32) };
}

impl<'a> Graph<'a> {
    /// The last of these units is the root's, which stands for so many entries.
    pub(crate) fn of(
        alloc: Global,
        nodes: Vec<Node<'a>>,
        count: u64,
        paths: Vec<Bytes>,
    ) -> Graph<'a>
        requires ordered { AreOrdered 0 nodes.items }
        requires numbered { AreNumbered (length paths.items) (root_items nodes.items) }
        requires count { count ≡ length (root_items nodes.items) }
        requires within { count ≤ most_items }
        requires paths { length paths.items < 2 ^ 32 }
        ensures { result ≡ record { items = root_items nodes.entry.items; paths = paths.items } }
    {
        Graph {
            alloc,
            nodes,
            count,
            paths,
        }
    }

    /// The number of entries, with imported units in their places.
    pub fn count(&self) -> u64
        ensures count { result ≡ length self.now.items }
        ensures within { result ≤ most_items }
    {
        self.count
    }

    /// All entries in their order, with imported units in their places.
    pub fn entries(&self) -> Result<Entries<'_>, NoMemory>
        ensures { IfOk result (λ entries. entries ≡ self.now.items) }
    {
        let root = NodeId {
            index: self.nodes.len().saturating_sub(1),
        };
        Ok(Entries::new(self.alloc, self.nodes.as_slice(), root, self.count))
    }

    /// The number of paths, which are numbered from 0 on.
    pub fn paths(&self) -> u32
        ensures count { result ≡ length self.now.paths }
        ensures numbers { AreNumbered result self.now.items }
    {
        self.paths.len() as u32
    }

    /// The path of a number.
    pub fn path(&self, id: u32) -> &[u8]
        requires { id < length self.now.paths }
        ensures { result.now ≡ path_in self.now.paths id }
    {
        self.paths[id as usize].as_slice()
    }
}
