//! Numbers in the bytes of a file: fields of fixed width, in either byte order, at any place
//! (docs/FORMATS.md, "Number fields").
//!
//! `at` is the place of a field's first byte, counted in bytes from 0. The order is in each name: `le`
//! is little-endian, lowest byte first, and `be` is big-endian, highest byte first. Signed numbers are
//! two's complement.
#![tactic(auto)]

mod fields;

pub use fields::{
    be_u16, be_u32, be_u64, le_i32, le_i64, le_u16, le_u32, le_u64, put_be_u16, put_be_u32,
    put_be_u64, put_le_i32, put_le_i64, put_le_u16, put_le_u32, put_le_u64,
};
