// Where the fields of block 0 begin: the table of docs/FORMATS.md, "Block 0".

pub const IDENTIFIER: usize = 0;

pub const VERSION: usize = 2;

pub const PAGE_SIZE: usize = 12;

pub const FILE_NAME: usize = 108;

pub const FLAGS: usize = 1006;

pub const DIRTY: usize = 1007;

pub const MAGIC_LONG: usize = 1008;

pub const MAGIC_INT: usize = 1016;

pub const MAGIC_SHORT: usize = 1020;

pub const MAGIC_CHAR: usize = 1022;

pub const PAIR_TAG: usize = 1024;

pub const GENERATION: usize = 1032;

pub const PAIR_FLAGS: usize = 1040;

// The bytes that the fields take.
pub const END: usize = 1048;

// What the fields hold, by the names of Vim's source, memline.c.
pub const B0_MAGIC_LONG: u64 = 0x3031_3233;

pub const B0_MAGIC_INT: u32 = 0x2021_2223;

pub const B0_MAGIC_SHORT: u16 = 0x1213;

pub const B0_MAGIC_CHAR: u8 = 0x55;

pub const B0_DIRTY: u8 = 0x55;

pub const B0_FF_MASK: u8 = 3;

pub const B0_SAME_DIR: u8 = 4;
