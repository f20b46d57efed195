ghost use Rattle.std.specs.Prelude.{◌≡◌, length, [], slice_get, unwrap_or};
ghost use Rattle.std.specs.Iterator.{at_most};
ghost use Rattle.import_graph.specs.Graph.{NextSays};
ghost use Rattle.import_graph.specs.Nodes.{AreOrdered, all_items};

use crate::node::{Node, NodeId};
use crate::rest::Rest;
use crate::spliced::Spliced;
use mac_base::NoMemory;
use std::alloc::Global;
use std::marker::Model;

/// The entries of a graph in their order. Want of memory is an item of its own, the last.
#[derive(Drop)]
pub struct Entries<'g> {
    nodes: &'g [Node<'g>],
    /// Where the units that are open go on.
    rest: Rest,
    /// How many entries are left.
    left: u64,
}

impl<'g> Model for Entries<'g> {
    ghost use Rattle.std.specs.Prelude.{◌≡◌, ℕ, List, length};
    ghost use Rattle.mac_base.specs.Items.{Item};
    ghost use Rattle.import_graph.specs.Nodes.{AreOrdered};
    ghost use Rattle.import_graph.specs.Rest.{rest_items};

    ghost Value = { List (Item ℕ) };

    ghost view = { λ e. rest_items e.nodes.now e.rest };

    ghost invariant = { λ e. AreOrdered 0 e.nodes.now × (e.left ≡ length (rest_items e.nodes.now e.rest)) };
}

impl<'g> Entries<'g> {
    /// The entries of a node, which are so many.
    pub(crate) fn new(alloc: Global, nodes: &'g [Node<'g>], node: NodeId, left: u64) -> Entries<'g>
        requires ordered { AreOrdered 0 nodes.now }
        requires count { left ≡ length (unwrap_or (slice_get (all_items [] nodes.now) node.index) []) }
        ensures { result ≡ unwrap_or (slice_get (all_items [] nodes.now) node.index) [] }
    {
        Entries {
            nodes,
            rest: Rest::new(alloc, node),
            left,
        }
    }
}

impl<'g> Iterator for Entries<'g> {
    type Item = Result<Spliced<'g>, NoMemory>;

    ghost next_gives = { λ old result new. NextSays result old new };

    ghost remaining = { λ items. at_most (length items) };

    /// The next entry. None comes behind want of memory.
    fn next(&mut self) -> Option<Result<Spliced<'g>, NoMemory>> {
        if self.left == 0 {
            return None;
        }
        match self.rest.next(self.nodes) {
            Ok(Some(spliced)) => {
                self.left -= 1;
                Some(Ok(spliced))
            }
            Ok(None) => None,
            Err(NoMemory) => {
                self.rest.close(self.nodes);
                self.left = 0;
                Some(Err(NoMemory))
            }
        }
    }
}
