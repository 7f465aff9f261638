//! Tests of the number fields and of the blocks of a swap file, through the public calls of their crates.
#![tactic(auto)]

#[cfg(test)]
mod bytes;
#[cfg(test)]
mod damage;
#[cfg(test)]
mod data;
#[cfg(test)]
mod ptr;
#[cfg(test)]
mod zero;
