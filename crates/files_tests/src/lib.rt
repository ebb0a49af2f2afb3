//! Files in memory that keep the clauses of the six calls, those whose region may be torn behind a closed flag, and a berth over them; a berth over a folder's files; and streams of the system.
#![tactic(auto)]

#[cfg(test)]
mod driven;
mod files;
#[cfg(test)]
mod folder;
#[cfg(test)]
mod standard;
mod torn;

pub use files::MemFiles;
pub use torn::TornFiles;
