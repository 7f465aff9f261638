ghost use Rattle.std.specs.Prelude.{◌≡◌, ◌≤◌, ◌++◌, ◌∷◌, [], ◌==◌, List, ℕ, length, take, drop, OnOk, OnErr};

use crate::Line;
use std::alloc::AllocFailed;
use std::marker::Model;

/// A text: its lines, of which there may be none.
#[derive(Debug, Drop)]
pub struct Text {
    lines: Vec<Line>,
}

impl Model for Text {
    ghost Value = { List (List ℕ) };

    ghost view = { λ text. text.lines.items };
}

impl Text {
    /// The text of these lines. It takes no memory.
    pub fn of(lines: Vec<Line>) -> Text
        ensures { result ≡ lines.items }
    {
        Text { lines }
    }

    /// The lines, in order.
    pub fn lines(&self) -> &[Line]
        ensures { result.now ≡ self.now }
    {
        self.lines.as_slice()
    }

    /// The lines themselves, in the memory that the text had.
    pub fn into_lines(self) -> Vec<Line>
        ensures { result.items ≡ self }
    {
        self.lines
    }

    /// The number of lines.
    pub fn len(&self) -> usize
        ensures { result ≡ length self.now }
    {
        self.lines.len()
    }

    pub fn is_empty(&self) -> bool
        ensures { result ≡ (length self.now == 0) }
    {
        self.lines.is_empty()
    }

    /// Adds a line at the end. If there is no memory, the line comes back.
    pub fn push(&mut self, line: Line) -> Result<(), AllocFailed<Line>>
        ensures ok { OnOk result (self.new ≡ self.old ++ line ∷ []) }
        ensures err { OnErr result (self.new ≡ self.old) }
    {
        self.lines.push(line)
    }
}
