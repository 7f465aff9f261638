//! Tests of writing a file with its backup: what a stop or a fault at each call leaves, the names of backups, and the options.
#![tactic(auto)]

pub mod desk;
#[cfg(test)]
mod fixture;
#[cfg(test)]
mod modes;
#[cfg(test)]
mod names;
#[cfg(test)]
mod options;
#[cfg(test)]
mod pieces;
#[cfg(test)]
mod rows;
#[cfg(test)]
mod stops;
#[cfg(test)]
mod watched;
