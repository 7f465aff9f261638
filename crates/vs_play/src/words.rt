// The words of a step.
use crate::images::keep_of;
use vs_memory::Choice;
use vs_scene::{PlayErr, Step};

pub(crate) fn first_word(text: &str) -> &str {
    match text.split_once(' ') {
        Some((word, _)) => word,
        None => text,
    }
}

/// The name after `swap` or `no swap`.
pub(crate) fn swap_name<'a>(step: &Step<'a>) -> Result<&'a str, PlayErr> {
    match step.line.strip_prefix("no swap ") {
        Some(name) => Ok(name),
        None => step.line.strip_prefix("swap ").ok_or(PlayErr::NoStep),
    }
}

pub(crate) fn number_in(text: &str) -> Result<u64, PlayErr> {
    text.parse().map_err(|_| PlayErr::NoStep)
}

/// What `names=N keep=K` asks for.
pub(crate) fn choice_of(text: &str) -> Result<Choice, PlayErr> {
    let rest = text.strip_prefix("names=").ok_or(PlayErr::NoStep)?;
    let (names, keep) = rest.split_once(" keep=").ok_or(PlayErr::NoStep)?;
    Ok(Choice {
        names: names.parse().map_err(|_| PlayErr::NoStep)?,
        keep: keep_of(keep)?,
    })
}
