//! Tests of recovery: swap files made by hand, hostile ones among them, what each of them is, and which of two is taken.
#![tactic(auto)]

#[cfg(test)]
mod choices;
#[cfg(test)]
mod hostile;
#[cfg(test)]
mod pages;
