//! Tests of the outside: the names that go with a file, and the host in memory.
#![tactic(auto)]

#[cfg(test)]
mod memory;
#[cfg(test)]
mod modes;
#[cfg(test)]
mod names;
