// The two files of a leaf.

/// Which of the two files of a leaf.
#[derive(Clone, Copy)]
pub enum LeafFile {
    Region,
    Disk,
}
