// The bytes of one page.
ghost use Rattle.std.specs.Prelude.{◌≡◌, ◌+◌, ◌≤◌, IfOk, length};
ghost use Rattle.vs_bytes.specs.Fields.{with_field};

use std::alloc::{AllocError, Global};

#[derive(Drop)]
pub struct Buffer {
    pub bytes: Vec<u8>,
    ghost size: { length bytes.items ≡ 4096 },
}

impl Buffer {
    pub fn of(alloc: Global, from: &[u8]) -> Result<Buffer, AllocError>
        requires { length from.now ≡ 4096 }
        ensures { IfOk result (λ buffer. buffer.bytes.items ≡ from.now) }
    {
        let bytes = Vec::from_slice(alloc, from)?;
        Ok(Buffer { bytes })
    }

    // Writes bytes over those from byte `from` on.
    pub fn patch(&mut self, from: usize, bytes: &[u8])
        requires { from + length bytes.now ≤ 4096 }
        ensures { self.new.bytes.items ≡ with_field self.old.bytes.items from bytes.now }
    {
        self.bytes[from..from + bytes.len()].copy_from_slice(bytes);
    }
}
