//! Tests of whole runs: over streams and berths that fail, over what a crash or the run before left, also of files,
//! over two leaves that are asked at once, with rollovers, and of soaks.
#![tactic(auto)]

#[cfg(test)]
mod again;
#[cfg(test)]
mod crashes;
#[cfg(test)]
mod faults;
#[cfg(test)]
mod files;
#[cfg(test)]
mod gates;
#[cfg(test)]
mod plays;
#[cfg(test)]
mod rollovers;
#[cfg(test)]
mod soaks;
#[cfg(test)]
mod streams;
