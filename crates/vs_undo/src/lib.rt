//! The undo tree: a history of texts, kept as the entries that lead from one to the next.
#![tactic(auto)]

mod add;
mod beside;
mod cross;
mod edit;
mod error;
mod forget;
mod forks;
mod install;
mod keep;
mod laws;
mod leaves;
mod mark;
mod meeting;
mod moves;
mod numbers;
mod parts;
mod tree;
mod way;
mod writes;

pub use cross::apply_all;
pub use edit::change;
pub use error::UndoErr;
pub use keep::Keep;
pub use laws::one_history;
pub use leaves::Leaf;
pub use parts::{Entries, Node, Nodes, Parts};
pub use tree::{Pushed, UndoTree};
pub use way::{find, last_child, path_between, way_of};

/// The greatest number that a new change gets.
pub const MAX_NUMBER: u64 = 2_000_000_000;

/// The greatest number of a change in an undo file.
pub const MAX_READ_NUMBER: u64 = 2_147_483_647;

/// The greatest last number in an undo file.
pub const MAX_LAST: u64 = 4_294_967_295;

/// The greatest save number.
pub const MAX_SAVE: u64 = 2_000_000_000;
