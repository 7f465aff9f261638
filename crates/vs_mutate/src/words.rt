// The words of the command line.

/// How files are made hostile.
#[derive(Clone, Copy, Debug, PartialEq, Eq)]
pub enum How {
    /// Each in a way of its own, with any number of changes up to the greatest.
    Anyhow,
    /// By their links alone, so that each is read to its end, with the greatest number of changes.
    Links,
}

/// Which files are made and read.
#[derive(Clone, Copy, Debug, PartialEq, Eq)]
pub struct Job {
    pub files: u64,
    pub seed: u64,
    /// The greatest number of changes in a file.
    pub changes: u32,
    pub how: How,
}

impl Job {
    /// The job that these words name; None where they are none.
    pub fn of(words: &[String]) -> Option<Job> {
        let how = match words {
            [_, _, _] => How::Anyhow,
            [_, _, _, how] if how.as_str() == "links" => How::Links,
            _ => return None,
        };
        Some(Job {
            files: words[0].parse().ok()?,
            seed: words[1].parse().ok()?,
            changes: words[2].parse().ok()?,
            how,
        })
    }
}
