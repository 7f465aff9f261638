//! The stress mode: its arguments, its commands and its line.
#![tactic(auto)]

#[cfg(test)]
mod arguments;
#[cfg(test)]
mod commands;
