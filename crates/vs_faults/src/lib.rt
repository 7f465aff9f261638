//! The words that every boundary to the outside shares: when a count of faults rose, and when it stayed.
#![tactic(auto)]
