//! Binding a history to its text: the digest of a text, and the undo file under its name.
#![tactic(auto)]

mod binding;
mod chaining;
mod fetching;
mod filing;
mod hashing;
mod laws;
mod linking;
mod loading;
mod numbering;
mod parting;
mod storing;
mod taking;
mod unbinding;

pub use binding::{BindErr, bind};
pub use fetching::{FetchErr, fetch};
pub use hashing::digest;
pub use laws::{gives_back, one_bound, some_meaning};
pub use loading::{LoadErr, load};
pub use parting::{one_meaning, parts_of};
pub use storing::store;
pub use unbinding::unbind;
