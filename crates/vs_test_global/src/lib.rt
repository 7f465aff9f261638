//! Tests of the global command.
#![tactic(auto)]

#[cfg(test)]
mod nested;
