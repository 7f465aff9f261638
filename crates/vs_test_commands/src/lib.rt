//! Tests of calls that no script reaches: names, commands over stores that fail, and scripts in pieces.
#![tactic(auto)]

#[cfg(test)]
mod commands;
#[cfg(test)]
mod failing;
#[cfg(test)]
mod names;
#[cfg(test)]
mod plans;
#[cfg(test)]
mod script_commands;
#[cfg(test)]
mod source;
