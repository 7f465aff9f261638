//! Whole runs of which no scenario can tell: a script that no memory could hold, and all blocks of a long text.
#![tactic(auto)]

#[cfg(test)]
mod comments;
#[cfg(test)]
mod helpers;
#[cfg(test)]
mod limits;
#[cfg(test)]
mod long;
#[cfg(test)]
mod pages;
