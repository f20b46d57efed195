/// A line of one instance of a file.
#[derive(Clone, Copy, Debug, PartialEq, Eq)]
pub struct Spot {
    /// The number of the entry that begins the instance, among all entries of the root, from 0 on.
    pub start: u64,
    pub line: u32,
}
