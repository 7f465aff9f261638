// The words of the command line.

/// What is measured.
#[derive(Clone, Copy, Debug, PartialEq, Eq)]
pub enum Task {
    /// A load is carried out.
    Load(Load),
    /// This many lines are put in, and then this many changes of one line each are made.
    Change(u64, u64),
}

impl Task {
    /// What these words name; None where they name nothing.
    pub fn of(words: &[String]) -> Option<Task> {
        match words {
            [verb, lines, changes] if verb.as_str() == "change" => {
                Some(Task::Change(lines.parse().ok()?, changes.parse().ok()?))
            }
            _ => Some(Task::Load(Load::of(words)?)),
        }
    }
}

/// What is done with an empty tree.
#[derive(Clone, Copy, Debug, PartialEq, Eq)]
pub enum Load {
    /// This many lines are put in, as a file is loaded.
    Fill(u64),
    /// This many lines are put in by one splice.
    Once(u64),
    /// This many lines are made as they are given to one splice, and none of them is put in.
    Lines(u64),
    /// This many lines are put in, and then this many runs of so many lines into the middle, one after another.
    Append(u64, u64, u64),
    /// This many lines are put in, and then so many of them, spread over the text, are replaced one after another.
    Replace(u64, u64),
}

impl Load {
    /// The load that these words name; None where they are no load.
    pub fn of(words: &[String]) -> Option<Load> {
        match words {
            [verb, lines] if verb.as_str() == "fill" => Some(Load::Fill(lines.parse().ok()?)),
            [verb, lines, how] if verb.as_str() == "fill" && how.as_str() == "once" => {
                Some(Load::Once(lines.parse().ok()?))
            }
            [verb, lines] if verb.as_str() == "lines" => Some(Load::Lines(lines.parse().ok()?)),
            [verb, lines, more] if verb.as_str() == "append" => {
                Some(Load::Append(lines.parse().ok()?, more.parse().ok()?, 1))
            }
            [verb, lines, more, run] if verb.as_str() == "append" => Some(Load::Append(
                lines.parse().ok()?,
                more.parse().ok()?,
                run.parse().ok()?,
            )),
            [verb, lines, count] if verb.as_str() == "replace" => {
                Some(Load::Replace(lines.parse().ok()?, count.parse().ok()?))
            }
            _ => None,
        }
    }
}
