//! Recovery: which text the swap files of a file stand for, and what is to be said of them.
#![tactic(auto)]

mod blocks;
mod calls;
mod choices;
mod error;
mod file_text;
mod image;
mod infos;
mod levels;
mod marks;
mod newest;
mod original;
mod roots;
mod tree;
mod walk;

pub use choices::{Chosen, Swap, choose};
pub use error::{Fault, RecErr};
pub use file_text::FileText;
pub use image::{Image, read_image};
pub use infos::info;
pub use roots::Root;
pub use vs_damaged::Marker;
pub use walk::{Salvaged, salvage};
