//! Tests of what is salvaged of damaged swap files: blocks and whole files made by hand, hostile ones among them, with their lines and
//! markers.
#![tactic(auto)]

#[cfg(test)]
mod blocks;
#[cfg(test)]
mod files;
#[cfg(test)]
mod limits;
#[cfg(test)]
mod rows;
#[cfg(test)]
mod targets;
