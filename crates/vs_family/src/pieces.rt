// A name by the pieces of which it is made, so that names are compared without memory.
ghost use Rattle.std.specs.Prelude.{◌≤◌, ◌+◌, length};

/// A name: a dot where it is hidden and the file's name has none, the file's name with a letter in the place of its last byte, and
/// two endings.
#[derive(Clone, Copy)]
pub(crate) struct Pieces<'a> {
    pub dot: &'a [u8],
    pub stem: &'a [u8],
    pub letter: u8,
    pub ending: &'a [u8],
    pub made: &'a [u8],
    ghost few: { length dot.now + length stem.now + length ending.now + length made.now ≤ 1000 },
}

impl Pieces<'_> {
    ghost use Rattle.std.specs.Prelude.{◌≡◌, ◌<◌, get_or};
    ghost use Rattle.std.specs.Str.{bytes_eq};
    ghost use Rattle.vs_family.specs.Pieces.{spelled};

    fn len(self) -> usize
        ensures { result ≡ length (spelled self.entry) }
    {
        self.dot.len() + self.stem.len() + 1 + self.ending.len() + self.made.len()
    }

    fn byte_at(self, at: usize) -> u8
        requires { at < length (spelled self) }
        ensures { result ≡ get_or (spelled self.entry) at 0 }
    {
        if at < self.dot.len() {
            return self.dot[at];
        }
        let at = at - self.dot.len();
        if at < self.stem.len() {
            return self.stem[at];
        }
        let at = at - self.stem.len();
        if at == 0 {
            return self.letter;
        }
        let at = at - 1;
        if at < self.ending.len() {
            return self.ending[at];
        }
        self.made[at - self.ending.len()]
    }

    /// Whether both are the same name.
    pub(crate) fn is_same(self, other: Pieces) -> bool
        ensures { result ≡ bytes_eq (spelled self.entry) (spelled other.entry) }
    {
        let size = self.len();
        if size != other.len() {
            return false;
        }
        for at in 0..size {
            if self.byte_at(at) != other.byte_at(at) {
                return false;
            }
        }
        true
    }
}
