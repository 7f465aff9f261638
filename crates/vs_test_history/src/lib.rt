//! Tests of the undo tree with its entries, of undo files, and of what binds a history to its text.
#![tactic(auto)]

#[cfg(test)]
mod bindings;
#[cfg(test)]
mod digests;
#[cfg(test)]
mod files;
#[cfg(test)]
mod forgetting;
#[cfg(test)]
mod histories;
#[cfg(test)]
mod misfits;
#[cfg(test)]
mod trees;
#[cfg(test)]
mod ufile;
#[cfg(test)]
mod undo;
