// Values from outside: magic numbers as they lie in the swap files (little-endian) and undo files
// (big-endian) that Vim writes, and the ends of the signed ranges.

use vs_bytes::*;

#[test]
fn reads_numbers_of_swap_files(rt: HostRuntime) {
    let bytes = b"..3210#\"! \x13\x12VSWPAIR1\x00\x00";
    assert!(rt; le_u32(bytes, 2) == 0x3031_3233);
    assert!(rt; le_u32(bytes, 6) == 0x2021_2223);
    assert!(rt; le_u16(bytes, 10) == 0x1213);
    assert!(rt; le_u64(bytes, 12) == 0x3152_4941_5057_5356);
    assert!(rt; le_u16(bytes, 20) == 0, "the last two bytes");
}

#[test]
fn reads_numbers_of_undo_files(rt: HostRuntime) {
    let bytes = b"\x9fUnDo\xe5\x00\x02\x5f\xd0\xe7\xaa\x00\x00\x00\x00\x65\x00\x00\x00";
    assert!(rt; be_u16(bytes, 6) == 2);
    assert!(rt; be_u16(bytes, 8) == 0x5fd0);
    assert!(rt; be_u32(bytes, 8) == 0x5fd0_e7aa);
    assert!(rt; be_u64(bytes, 12) == 0x6500_0000, "a time of 8 bytes");
}

#[test]
fn reads_signed_numbers(rt: HostRuntime) {
    let bytes = b"\xff\xff\xff\xff\xff\xff\xff\xff\xfe\xff\xff\xff\x00\x00\x00\x80\x00\x00\x00\x80";
    assert!(rt; le_i32(bytes, 0) == -1);
    assert!(rt; le_i32(bytes, 8) == -2);
    assert!(rt; le_i32(bytes, 12) == i32::MIN);
    assert!(rt; le_i64(bytes, 0) == -1);
    assert!(rt; le_i64(bytes, 4) == -0x1_0000_0001);
    assert!(rt; le_i64(bytes, 10) == 0x8000_0000_ffff);
}

#[test]
fn writes_one_field_alone(rt: HostRuntime) {
    let mut bytes = [0xaa; 12];
    put_le_u16(&mut bytes, 1, 0x1213);
    assert!(rt; bytes.starts_with(b"\xaa\x13\x12\xaa"));
    put_le_u32(&mut bytes, 1, 0x3031_3233);
    assert!(rt; bytes.starts_with(b"\xaa3210\xaa"));
    put_le_u64(&mut bytes, 2, 0x3152_4941_5057_5356);
    assert!(rt; bytes == *b"\xaa3VSWPAIR1\xaa\xaa");
}

#[test]
fn writes_one_signed_field_alone(rt: HostRuntime) {
    let mut bytes = *b"\xaa3VSWPAIR1\xaa\xaa";
    put_le_i32(&mut bytes, 8, -2);
    assert!(rt; bytes.ends_with(b"AI\xfe\xff\xff\xff"));
    put_le_i64(&mut bytes, 4, i64::MIN);
    assert!(rt; bytes == *b"\xaa3VS\x00\x00\x00\x00\x00\x00\x00\x80");
}

#[test]
fn writes_fields_with_the_highest_byte_first(rt: HostRuntime) {
    let mut bytes = *b"\xaa3VS\x00\x00\x00\x00\x00\x00\x00\x80";
    put_be_u16(&mut bytes, 10, 0x5fd0);
    put_be_u32(&mut bytes, 6, 0xf518_3581);
    put_be_u64(&mut bytes, 0, 0x0102_0304_0506_0708);
    assert!(rt; bytes == *b"\x01\x02\x03\x04\x05\x06\x07\x08\x35\x81\x5f\xd0");
}
