ghost use Rattle.std.specs.Prelude.{◌≡◌, ◌≢◌, All};
ghost use Rattle.vs_text.specs.Text.{IsLine, stored_byte, plain_byte, stored_line, plain_line};

fn stored_byte(byte: u8) -> u8
    ensures { result ≡ stored_byte byte }
{
    if byte == 0 { b'\n' } else { byte }
}

fn plain_byte(byte: u8) -> u8
    ensures { result ≡ plain_byte byte }
{
    if byte == b'\n' { 0 } else { byte }
}

/// Turns a line into its stored form, in place: byte 0 becomes byte 10 (docs/FORMATS.md, "The stored form").
pub fn to_stored(line: &mut [u8])
    ensures stored { line.new ≡ stored_line line.old }
    ensures no_zero { All (λ byte. byte ≢ 0) line.new }
    ensures way_back { IsLine line.old → plain_line line.new ≡ line.old }
{
    for byte in line.iter_mut() {
        *byte = stored_byte(*byte);
    }
}

/// Turns the stored form of a line into the line, in place: byte 10 becomes byte 0 (docs/FORMATS.md, "The stored form").
pub fn from_stored(line: &mut [u8])
    ensures plain { line.new ≡ plain_line line.old }
    ensures is_line { IsLine line.new }
{
    for byte in line.iter_mut() {
        *byte = plain_byte(*byte);
    }
}
