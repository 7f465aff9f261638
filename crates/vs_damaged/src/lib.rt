//! What the blocks of a damaged swap file give: lines, and markers in the place of what is missing. A block is lent as its bytes,
//! which may be any.
#![tactic(auto)]

mod finds;
mod shown;

pub use finds::{Target, push_entries, show_data, target_of};
pub use shown::{Marker, Shown};
