// How many lines are copied from a store at a time.
ghost use Rattle.std.specs.Prelude.{◌≡◌, ◌≤◌, ◌<◌};
ghost use Rattle.vs_text.specs.declared.TheConstants.{MAX_LINES};
ghost use Rattle.vs_reads.specs.Runs.{IsRunLength};

/// The bytes that a run of lines is to have.
pub const RUN_BYTES: u64 = 65_536;

/// The greatest number of lines of a run.
pub const MAX_RUN_LINES: u64 = 1_024;

/// The number of lines of a run, where the length of no line is known.
pub const FIRST_RUN_LINES: u64 = 16;

/// The number of lines of the next run, where so many lines before it have so many bytes.
///
/// It is the greatest number of lines that have at most [`RUN_BYTES`] bytes together if each has the mean length of those before, but
/// at least one and at most [`MAX_RUN_LINES`]. Where there are no lines before, it is [`FIRST_RUN_LINES`].
pub fn run_lines(lines: u64, bytes: u64) -> u64
    requires { lines ≤ MAX_LINES }
    ensures { IsRunLength lines bytes result }
{
    if lines == 0 {
        return FIRST_RUN_LINES;
    }
    let fitting = lines * RUN_BYTES / bytes.max(1);
    fitting.max(1).min(MAX_RUN_LINES)
}
