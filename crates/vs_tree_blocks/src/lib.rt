//! The blocks of the line tree, as they are read from pages and written to them.
#![tactic(auto)]

mod add;
mod behind;
mod beside;
mod bytes;
mod data;
mod depths;
mod edit;
mod entries;
mod exchange;
mod find;
mod first;
mod load;
mod long;
mod pointers;
mod put;
mod run;
mod split;

pub use add::add_block;
pub use bytes::pointer_bytes;
pub use data::edit_data;
pub use depths::{filled_is_low, has_one_list};
pub use edit::{Edit, Edited, MOST_RUNS, Removed};
pub use entries::load_entries;
pub use exchange::{exchange_entry, exchange_in_root};
pub use find::find_below;
pub use first::write_first;
pub use load::{load_data, load_line};
pub use pointers::{MOST_ENTRIES, entry_above, halve};
pub use run::{FirstRun, Run};
