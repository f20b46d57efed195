use crate::spliced::Spliced;

/// The number of a unit among those that were read whole, in the order in which they ended.
#[derive(Clone, Copy, Debug, PartialEq, Eq)]
pub struct NodeId {
    pub index: usize,
}

/// What stands in a unit: an entry of its own, or all of another unit.
#[derive(Clone, Copy, Debug, PartialEq, Eq)]
pub enum Link<'a> {
    Own(Spliced<'a>),
    Import(NodeId),
}

/// A unit that was read whole. What it imports ended before it.
#[derive(Drop)]
pub struct Node<'a> {
    /// Entries that say nothing, and imports of units that stand for nothing, are left out.
    pub links: Vec<Link<'a>>,
    /// How many entries it stands for, or one more than a root may have where they are more.
    pub count: u64,
}
