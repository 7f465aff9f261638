//! Tests of the swap pair and of a text in its pages: what a stop after each call leaves, and the bytes of the files.
#![tactic(auto)]

#[cfg(test)]
mod altered;
#[cfg(test)]
mod asking;
#[cfg(test)]
mod bytes;
#[cfg(test)]
mod counts;
#[cfg(test)]
mod held;
pub mod life;
#[cfg(test)]
mod outside;
#[cfg(test)]
mod rows;
#[cfg(test)]
mod stops;
pub mod written;
