//! Tests of the line tree, and of the pages and entries that it stands on, by their public calls.
#![tactic(auto)]

#[cfg(test)]
mod copies;
#[cfg(test)]
mod damage;
#[cfg(test)]
mod entries;
#[cfg(test)]
mod failing;
#[cfg(test)]
mod generated;
#[cfg(test)]
mod layout;
#[cfg(test)]
mod marks;
#[cfg(test)]
mod refused;
#[cfg(test)]
mod splices;
#[cfg(test)]
mod stores;
