// The replies to errors.
ghost use Rattle.std.specs.Prelude.{◌≡◌, ◌<◌, length};
ghost use Rattle.vs_machine.specs.Replies.{error_text};

use vs_exparse::ExErr;

/// The text of an error of a command line, or of a command of the text (`:help error-messages`).
pub(crate) fn error_text(error: ExErr) -> &'static [u8]
    ensures text { result.now ≡ error_text error }
    ensures short { length result.now < 320 }
{
    match error {
        ExErr::LineTooLong => b"line too long",
        ExErr::E492 => b"E492: Not an editor command",
        ExErr::E481 => b"E481: No range allowed",
        ExErr::E477 => b"E477: No ! allowed",
        ExErr::E488 => b"E488: Trailing characters",
        ExErr::E939 => b"E939: Positive count required",
        ExErr::E14 => b"E14: Invalid address",
        ExErr::E471 => b"E471: Argument required",
        ExErr::E474 => b"E474: Invalid argument",
        ExErr::E518 => b"E518: Unknown option",
        ExErr::PatternForm => b"pattern form not supported",
        ExErr::E147 => b"E147: Cannot do :global recursive",
        ExErr::NotNested => b"command not allowed in :global",
        ExErr::E493 => b"E493: Backwards range given",
        ExErr::E16 => b"E16: Invalid range",
        ExErr::E134 => b"E134: Cannot move a range of lines into itself",
        ExErr::E486 => b"E486: Pattern not found",
        ExErr::TextFull => b"text too large",
    }
}
