// Files in memory, by name. What cannot be done answers `None`.
use std::alloc::Global;

#[derive(Drop)]
struct HeldFile {
    name: String,
    bytes: Vec<u8>,
}

#[derive(Drop)]
pub struct HeldFiles {
    alloc: Global,
    all: Vec<HeldFile>,
}

impl HeldFiles {
    pub fn new(alloc: Global) -> HeldFiles {
        HeldFiles {
            alloc,
            all: Vec::new(alloc),
        }
    }

    fn place(&self, name: &str) -> Option<usize> {
        self.all.iter().position(|it| it.name.as_str() == name)
    }

    fn file(&mut self, name: &str) -> Option<&mut HeldFile> {
        let place = self.place(name)?;
        self.all.get_mut(place)
    }

    /// The bytes of a file.
    pub fn bytes(&self, name: &str) -> Option<&[u8]> {
        let place = self.place(name)?;
        Some(&self.all.get(place)?.bytes)
    }

    pub fn size(&self, name: &str) -> Option<u64> {
        Some(self.bytes(name)?.len() as u64)
    }

    pub fn make(&mut self, name: &str) -> Option<()> {
        let file = HeldFile {
            name: String::from_str(self.alloc, name).ok()?,
            bytes: Vec::new(self.alloc),
        };
        self.all.push(file).ok()
    }

    pub fn read(&self, name: &str, at: u64, into: &mut [u8]) -> Option<()> {
        let from = at as usize;
        let end = from.checked_add(into.len())?;
        into.copy_from_slice(self.bytes(name)?.get(from..end)?);
        Some(())
    }

    /// Writes over bytes from this place on, and after the last one.
    pub fn write(&mut self, name: &str, at: u64, piece: &[u8]) -> Option<()> {
        let from = at as usize;
        let end = from.checked_add(piece.len())?;
        let file = self.file(name)?;
        let size = file.bytes.len().max(end);
        file.bytes.resize(size, 0).ok()?;
        file.bytes[from..end].copy_from_slice(piece);
        Some(())
    }

    pub fn cut(&mut self, name: &str, len: u64) -> Option<()> {
        self.file(name)?.bytes.truncate(len as usize);
        Some(())
    }

    pub fn remove(&mut self, name: &str) -> Option<()> {
        let place = self.place(name)?;
        if place >= self.all.len() {
            return None;
        }
        self.all.remove(place);
        Some(())
    }

    /// Gives a file another name, which it takes from a file that has it.
    pub fn rename(&mut self, from: &str, to: &str) -> Option<()> {
        let name = String::from_str(self.alloc, to).ok()?;
        let _ = self.remove(to);
        self.file(from)?.name = name;
        Some(())
    }
}
