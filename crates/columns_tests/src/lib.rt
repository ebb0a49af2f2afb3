//! Tests of the public calls of `bit_columns`, `delta_codes` and `column_bytes`.
#![tactic(auto)]

#[cfg(test)]
mod bits;
#[cfg(test)]
mod differences;
#[cfg(test)]
mod encoding;
#[cfg(test)]
mod reading;
#[cfg(test)]
mod sets;
#[cfg(test)]
mod vectors;
