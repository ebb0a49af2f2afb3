//! The edge to the system: a berth over the two files of a leaf, which tells what the files tell.
#![tactic(auto)]

mod access;
mod berth;
mod calls;
mod folder;
mod kept;
mod leaf_file;
mod whole;

pub use access::Access;
pub use berth::FileBerth;
pub use calls::FileCalls;
pub use folder::FolderFiles;
pub use leaf_file::LeafFile;
