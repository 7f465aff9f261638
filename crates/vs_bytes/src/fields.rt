// Each field is read and written by byteorder, in the order that its name says.
#![tactic(auto, unfolding(crate::specs::Fields::number_of, crate::specs::Fields::bytes_of))]

ghost use Rattle.std.specs.Prelude.{◌≡◌, ◌+◌, ◌≤◌, length};
ghost use Rattle.std.specs.Int.{w32, w64};
ghost use Rattle.vs_bytes.specs.Fields.{Big, Little, number_at, signed_at, with_number, with_signed};

use byteorder::{BigEndian, ByteOrder, LittleEndian};

/// The unsigned number in the 2 bytes at `at`, lowest byte first.
pub fn le_u16(b: &[u8], at: usize) -> u16
    requires { at + 2 ≤ length b.now }
    ensures { result ≡ number_at Little 2 b.now at }
{
    LittleEndian::read_u16(&b[at..at + 2])
}

/// The unsigned number in the 4 bytes at `at`, lowest byte first.
pub fn le_u32(b: &[u8], at: usize) -> u32
    requires { at + 4 ≤ length b.now }
    ensures { result ≡ number_at Little 4 b.now at }
{
    LittleEndian::read_u32(&b[at..at + 4])
}

/// The unsigned number in the 8 bytes at `at`, lowest byte first.
pub fn le_u64(b: &[u8], at: usize) -> u64
    requires { at + 8 ≤ length b.now }
    ensures { result ≡ number_at Little 8 b.now at }
{
    LittleEndian::read_u64(&b[at..at + 8])
}

/// The signed number in the 4 bytes at `at`, lowest byte first.
pub fn le_i32(b: &[u8], at: usize) -> i32
    requires { at + 4 ≤ length b.now }
    ensures { result ≡ signed_at Little w32 b.now at }
{
    LittleEndian::read_i32(&b[at..at + 4])
}

/// The signed number in the 8 bytes at `at`, lowest byte first.
pub fn le_i64(b: &[u8], at: usize) -> i64
    requires { at + 8 ≤ length b.now }
    ensures { result ≡ signed_at Little w64 b.now at }
{
    LittleEndian::read_i64(&b[at..at + 8])
}

/// The unsigned number in the 2 bytes at `at`, highest byte first.
pub fn be_u16(b: &[u8], at: usize) -> u16
    requires { at + 2 ≤ length b.now }
    ensures { result ≡ number_at Big 2 b.now at }
{
    BigEndian::read_u16(&b[at..at + 2])
}

/// The unsigned number in the 4 bytes at `at`, highest byte first.
pub fn be_u32(b: &[u8], at: usize) -> u32
    requires { at + 4 ≤ length b.now }
    ensures { result ≡ number_at Big 4 b.now at }
{
    BigEndian::read_u32(&b[at..at + 4])
}

/// The unsigned number in the 8 bytes at `at`, highest byte first.
pub fn be_u64(b: &[u8], at: usize) -> u64
    requires { at + 8 ≤ length b.now }
    ensures { result ≡ number_at Big 8 b.now at }
{
    BigEndian::read_u64(&b[at..at + 8])
}

/// Writes the number into the 2 bytes at `at`, lowest byte first, and leaves all other bytes.
pub fn put_le_u16(b: &mut [u8], at: usize, value: u16)
    requires { at + 2 ≤ length b.old }
    ensures { b.new ≡ with_number Little 2 b.old at value }
{
    LittleEndian::write_u16(&mut b[at..at + 2], value);
}

/// Writes the number into the 4 bytes at `at`, lowest byte first, and leaves all other bytes.
pub fn put_le_u32(b: &mut [u8], at: usize, value: u32)
    requires { at + 4 ≤ length b.old }
    ensures { b.new ≡ with_number Little 4 b.old at value }
{
    LittleEndian::write_u32(&mut b[at..at + 4], value);
}

/// Writes the number into the 8 bytes at `at`, lowest byte first, and leaves all other bytes.
pub fn put_le_u64(b: &mut [u8], at: usize, value: u64)
    requires { at + 8 ≤ length b.old }
    ensures { b.new ≡ with_number Little 8 b.old at value }
{
    LittleEndian::write_u64(&mut b[at..at + 8], value);
}

/// Writes the number into the 4 bytes at `at`, lowest byte first, and leaves all other bytes.
pub fn put_le_i32(b: &mut [u8], at: usize, value: i32)
    requires { at + 4 ≤ length b.old }
    ensures { b.new ≡ with_signed Little w32 b.old at value }
{
    LittleEndian::write_i32(&mut b[at..at + 4], value);
}

/// Writes the number into the 8 bytes at `at`, lowest byte first, and leaves all other bytes.
pub fn put_le_i64(b: &mut [u8], at: usize, value: i64)
    requires { at + 8 ≤ length b.old }
    ensures { b.new ≡ with_signed Little w64 b.old at value }
{
    LittleEndian::write_i64(&mut b[at..at + 8], value);
}

/// Writes the number into the 2 bytes at `at`, highest byte first, and leaves all other bytes.
pub fn put_be_u16(b: &mut [u8], at: usize, value: u16)
    requires { at + 2 ≤ length b.old }
    ensures { b.new ≡ with_number Big 2 b.old at value }
{
    BigEndian::write_u16(&mut b[at..at + 2], value);
}

/// Writes the number into the 4 bytes at `at`, highest byte first, and leaves all other bytes.
pub fn put_be_u32(b: &mut [u8], at: usize, value: u32)
    requires { at + 4 ≤ length b.old }
    ensures { b.new ≡ with_number Big 4 b.old at value }
{
    BigEndian::write_u32(&mut b[at..at + 4], value);
}

/// Writes the number into the 8 bytes at `at`, highest byte first, and leaves all other bytes.
pub fn put_be_u64(b: &mut [u8], at: usize, value: u64)
    requires { at + 8 ≤ length b.old }
    ensures { b.new ≡ with_number Big 8 b.old at value }
{
    BigEndian::write_u64(&mut b[at..at + 8], value);
}
