// The arguments of commands.

ghost use Rattle.std.specs.Prelude.{◌≡◌, ◌≤◌, ◌+◌, Some, None, length, IfOk, IfErr, IfSome, IsTrue};
ghost use Rattle.vs_exparse.specs.Argument.{number_in, count_errors, change_errors, destination_of, destination_errors, in_writes, steps_of, steps_errors, pattern_of, nested_of, pattern_errors, replacement_of, replaces_all, substitute_errors, is_either, is_option, switches, values, setting_in, levels_in, levels_of, setting_of, set_errors};
ghost use Rattle.vs_exparse.specs.Bytes.{max_line_bytes};
ghost use Rattle.vs_exparse.specs.Command.{HasCount, command_of, result_of};
ghost use Rattle.vs_exparse.specs.Command.Command.{Substitute as substitute};
ghost use Rattle.vs_exparse.specs.Errors.{Answers, first_error};
ghost use Rattle.vs_exparse.specs.Form.{HasForm, HasSettingForm};
ghost use Rattle.vs_exparse.specs.Pieces.{is_pattern};

use crate::bytes::{after, all_digits, number, skip_blanks, split_letters};
use crate::command::{Address, Command, ExErr, Range, Setting};
use crate::pieces::{is_pattern, is_replacement, split_field};
use crate::range::read_address;

/// The greatest number of changes that are kept, and the greatest number of digits that say it.
const MAX_LEVELS: u32 = 1_000_000;

const MAX_LEVELS_DIGITS: usize = 7;

pub(crate) fn read_count(argument: &[u8]) -> Result<Option<u32>, ExErr>
    ensures value { Answers (count_errors argument.now) (Some (number_in argument.now)) result }
    ensures form { IfOk result HasCount }
{
    if argument.is_empty() {
        return Ok(None);
    }
    if !all_digits(argument) {
        return Err(ExErr::E488);
    }
    let count = number(argument);
    if count == 0 {
        return Err(ExErr::E939);
    }
    Ok(Some(count))
}

pub(crate) fn read_change(argument: &[u8]) -> Result<Option<u32>, ExErr>
    ensures { Answers (change_errors argument.now) (Some (number_in argument.now)) result }
{
    if argument.is_empty() {
        return Ok(None);
    }
    if !all_digits(argument) {
        return Err(ExErr::E474);
    }
    Ok(Some(number(argument)))
}

pub(crate) fn read_destination(argument: &[u8]) -> Result<Address, ExErr>
    requires { length argument.now ≤ max_line_bytes + 1 }
    ensures { Answers (destination_errors argument.now) (destination_of argument.now) result }
{
    let (address, rest) = read_address(argument);
    let Some(address) = address else {
        return Err(ExErr::E14);
    };
    if !skip_blanks(rest).is_empty() {
        return Err(ExErr::E488);
    }
    Ok(address)
}

/// How many steps to go, and whether they are counted in writes.
#[derive(Clone, Copy, Debug, PartialEq, Eq)]
pub(crate) struct Steps {
    pub(crate) by: u32,
    pub(crate) writes: bool,
}

pub(crate) fn read_steps(argument: &[u8]) -> Result<Steps, ExErr>
    ensures value { Answers (steps_errors argument.now) (Some (record { by = steps_of argument.now; writes = in_writes argument.now })) result }
    ensures form { IfOk result (λ steps. 1 ≤ steps.by) }
{
    if argument.is_empty() {
        return Ok(Steps {
            by: 1,
            writes: false,
        });
    }
    let writes = argument.ends_with(b"f");
    let digits = if writes {
        argument.split_at(argument.len() - 1).0
    } else {
        argument
    };
    let by = number(digits);
    if !all_digits(digits) || by == 0 {
        return Err(ExErr::E474);
    }
    Ok(Steps { by, writes })
}

/// The pattern that stands after `/\V`, and what stands after its slash.
pub(crate) fn read_pattern(argument: &[u8]) -> Result<(&[u8], &[u8]), ExErr>
    ensures refused { IfErr result (λ error. first_error (pattern_errors argument.now) ≡ Some error) }
    ensures allowed { IfOk result (λ fields. first_error (pattern_errors argument.now) ≡ None) }
    ensures pattern { IfOk result (λ fields. fields.0.now ≡ pattern_of argument.now) }
    ensures form { IfOk result (λ fields. IsTrue (is_pattern fields.0.now)) }
    ensures rest { IfOk result (λ fields. fields.1.now ≡ nested_of argument.now) }
{
    let Some(text) = after(b"/\\V", argument) else {
        return Err(ExErr::PatternForm);
    };
    let (pattern, rest) = split_field(text);
    if !is_pattern(pattern) {
        return Err(ExErr::PatternForm);
    }
    Ok((pattern, rest))
}

pub(crate) fn read_substitution(range: Range, argument: &[u8]) -> Result<Command<'_>, ExErr>
    ensures value { Answers (substitute_errors argument.now)
        (Some (substitute range (pattern_of argument.now) (replacement_of argument.now) (replaces_all argument.now))) (result_of result) }
    ensures form { IfOk result (λ command. HasForm (command_of command)) }
{
    let (pattern, rest) = read_pattern(argument)?;
    let (replacement, flags) = split_field(rest);
    if !is_replacement(replacement) {
        return Err(ExErr::PatternForm);
    }
    let all = flags == b"g".as_slice();
    if !flags.is_empty() && !all {
        return Err(ExErr::E488);
    }
    Ok(Command::Substitute {
        range,
        pattern,
        replacement,
        all,
    })
}

fn is_either(text: &[u8], long: &[u8], short: &[u8]) -> bool
    ensures { result ≡ is_either text.now long.now short.now }
{
    text == long || text == short
}

/// The option that this text turns on or off.
fn switch(text: &[u8]) -> Option<Setting>
    ensures setting { result ≡ setting_in switches text.now }
    ensures form { IfSome result HasSettingForm }
{
    if is_either(text, b"backup", b"bk") {
        return Some(Setting::Backup(true));
    }
    if is_either(text, b"nobackup", b"nobk") {
        return Some(Setting::Backup(false));
    }
    if is_either(text, b"writebackup", b"wb") {
        return Some(Setting::WriteBackup(true));
    }
    if is_either(text, b"nowritebackup", b"nowb") {
        return Some(Setting::WriteBackup(false));
    }
    if is_either(text, b"undofile", b"udf") {
        return Some(Setting::UndoFile(true));
    }
    if is_either(text, b"noundofile", b"noudf") {
        return Some(Setting::UndoFile(false));
    }
    None
}

/// The option to which this text gives a value.
fn value(text: &[u8]) -> Option<Setting>
    ensures setting { result ≡ setting_in values text.now }
    ensures form { IfSome result HasSettingForm }
{
    if is_either(text, b"backupcopy=yes", b"bkc=yes") {
        return Some(Setting::CopyYes);
    }
    if is_either(text, b"backupcopy=no", b"bkc=no") {
        return Some(Setting::CopyNo);
    }
    if is_either(text, b"backupcopy=auto", b"bkc=auto") {
        return Some(Setting::CopyAuto);
    }
    if is_either(text, b"fileformat=unix", b"ff=unix") {
        return Some(Setting::Unix);
    }
    if is_either(text, b"fileformat=dos", b"ff=dos") {
        return Some(Setting::Dos);
    }
    None
}

/// The number of changes that these digits say are kept.
fn levels_in(digits: &[u8]) -> Option<Setting>
    ensures setting { result ≡ levels_in digits.now }
    ensures form { IfSome result HasSettingForm }
{
    let levels = number(digits);
    if digits.len() > MAX_LEVELS_DIGITS
        || !all_digits(digits)
        || levels == 0
        || levels > MAX_LEVELS
    {
        return None;
    }
    Some(Setting::UndoLevels(levels))
}

/// The option to which this text gives a number.
fn levels(text: &[u8]) -> Option<Setting>
    ensures setting { result ≡ levels_of text.now }
    ensures form { IfSome result HasSettingForm }
{
    match after(b"undolevels=", text).or(after(b"ul=", text)) {
        Some(digits) => levels_in(digits),
        None => None,
    }
}

fn is_option(name: &[u8]) -> bool
    ensures { result ≡ is_option name.now }
{
    switch(name).is_some()
        || is_either(name, b"backupcopy", b"bkc")
        || is_either(name, b"undolevels", b"ul")
        || is_either(name, b"fileformat", b"ff")
}

pub(crate) fn read_setting(argument: &[u8]) -> Result<Setting, ExErr>
    ensures value { Answers (set_errors argument.now) (setting_of argument.now) result }
    ensures form { IfOk result HasSettingForm }
{
    if argument.is_empty() {
        return Err(ExErr::E471);
    }
    let (name, _) = split_letters(argument);
    if !is_option(name) {
        return Err(ExErr::E518);
    }
    switch(argument)
        .or(value(argument))
        .or(levels(argument))
        .ok_or(ExErr::E474)
}
