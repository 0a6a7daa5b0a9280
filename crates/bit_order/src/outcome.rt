/// How nodes that read each other can be put in order, or why they can't.
#[derive(Drop)]
pub enum Order {
    /// Each node once, behind all that it reads.
    Sorted(Vec<u32>),
    /// Different nodes, of which each reads the next and the last reads the first.
    Ring(Vec<u32>),
}
