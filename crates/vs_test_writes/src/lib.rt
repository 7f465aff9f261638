//! What the calls of a run that writes its file ask for.
#![tactic(auto)]

#[cfg(test)]
mod helpers;
#[cfg(test)]
mod pieces;
#[cfg(test)]
mod watched;
