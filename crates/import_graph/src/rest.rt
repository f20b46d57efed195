ghost use Rattle.std.specs.Prelude.{◌≡◌, ◌+◌, ◌<◌, ◌^◌, slice_get, [], IfSome};
ghost use Rattle.import_graph.specs.Nodes.{AreOrdered};
ghost use Rattle.import_graph.specs.Rest.{links_in, rest_items, TakesNext};

use crate::node::{Link, Node, NodeId};
use crate::spliced::Spliced;
use mac_base::NoMemory;
use std::alloc::Global;

/// The next link of a unit that is open.
#[derive(Clone, Copy)]
pub struct Place {
    pub node: NodeId,
    pub next: usize,
}

/// What is left of the units that are open.
#[derive(Drop)]
pub struct Rest {
    /// Where the innermost one goes on.
    pub here: Place,
    /// Where those around it go on, each of which was imported by the one before.
    pub outer: Vec<Place>,
}

impl Rest {
    /// One unit is open, at its first link.
    pub fn new(alloc: Global, node: NodeId) -> Rest
        ensures here { result.here ≡ record { node = node; next = 0 } }
        ensures outer { result.outer.items ≡ [] }
    {
        Rest {
            here: Place { node, next: 0 },
            outer: Vec::new(alloc),
        }
    }

    /// Takes the next entry. Behind want of memory what is left means nothing.
    pub fn next<'g>(&mut self, nodes: &'g [Node<'g>]) -> Result<Option<Spliced<'g>>, NoMemory>
        requires { AreOrdered 0 nodes.now }
        ensures { TakesNext nodes.now result self.old self.new }
    {
        loop {
            match link_at(nodes, self.here) {
                Some(Link::Own(spliced)) => {
                    self.here.next += 1;
                    return Ok(Some(spliced));
                }
                Some(Link::Import(node)) => {
                    self.here.next += 1;
                    self.outer.push(self.here)?;
                    self.here = Place { node, next: 0 };
                }
                None => match self.outer.pop() {
                    Some(place) => self.here = place,
                    None => return Ok(None),
                },
            }
        }
    }

    /// Leaves all units.
    pub fn close(&mut self, nodes: &[Node<'_>])
        ensures { rest_items nodes.now self.new ≡ [] }
    {
        self.outer.clear();
        self.here.node.index = nodes.len();
    }
}

/// The link at a place, if the unit has so many.
fn link_at<'g>(nodes: &'g [Node<'g>], place: Place) -> Option<Link<'g>>
    ensures link { result ≡ slice_get (links_in (slice_get nodes.now place.node.index)) place.next }
    ensures fits { IfSome result (λ _. place.next + 1 < 2 ^ 64) }
{
    let node = nodes.get(place.node.index)?;
    node.links.as_slice().get(place.next).copied()
}
