// The forms of the arguments.
ghost use Rattle.std.specs.Prelude.{◌≡◌, ◌≢◌, List, ℕ, IfSome, IsNone, map, string_bytes};
ghost use Rattle.vs_top.specs.Forms.{IsForm, NamesFile, word_of};
ghost use Rattle.vs_top.specs.PairPromise.{IsPair};
ghost use Rattle.vs_top.specs.Stress.{IsStress};

use vs_family::clash;
use vs_host::allowed;
use vs_stress::count_of;

/// What is done with the file of a name.
#[derive(Clone, Copy, Debug, PartialEq, Eq)]
pub enum Mode {
    Edit,
    Recover,
    Info,
    Discard,
}

/// Arguments that have a form: a mode and a name that is allowed.
#[derive(Clone, Copy)]
pub struct Form<'a> {
    pub mode: Mode,
    pub name: &'a str,
}

fn mode_of(word: &str) -> Option<Mode>
    ensures some { IfSome result (λ mode. word.now ≡ word_of mode) }
    ensures none { IsNone result → (mode : Mode) → word.now ≢ word_of mode }
{
    match word {
        "edit" => Some(Mode::Edit),
        "recover" => Some(Mode::Recover),
        "info" => Some(Mode::Info),
        "discard" => Some(Mode::Discard),
        _ => None,
    }
}

/// The form of the arguments, where they have one with the name of a file.
pub fn form_of(words: &[String]) -> Option<Form<'_>>
    ensures some { IfSome result (λ form. IsForm (map string_bytes words.entry.now) form.mode form.name.now) }
    ensures none { IsNone result → ¬ NamesFile (map string_bytes words.entry.now) }
{
    let [word, name] = words else {
        return None;
    };
    let mode = mode_of(word.as_str())?;
    let name = name.as_str();
    if !allowed(name) {
        return None;
    }
    Some(Form { mode, name })
}

/// The number of commands that the arguments ask for, where they are those of the stress mode.
pub fn stress_count(words: &[String]) -> Option<u64>
    ensures some { IfSome result (λ count. IsStress (map string_bytes words.now) count) }
    ensures none { IsNone result → (count : ℕ) → ¬ IsStress (map string_bytes words.now) count }
{
    let [word, number] = words else {
        return None;
    };
    if word.as_str() != "stress" {
        return None;
    }
    count_of(number.as_str())
}

/// The names of the two files that the arguments ask to edit with one script.
pub fn pair_names(words: &[String]) -> Option<(&str, &str)>
    ensures some { IfSome result (λ names. IsPair (map string_bytes words.entry.now) names.0.now names.1.now) }
    ensures none { IsNone result → (one two : List ℕ) → ¬ IsPair (map string_bytes words.entry.now) one two }
{
    let [word, one, two] = words else {
        return None;
    };
    if word.as_str() != "pair" {
        return None;
    }
    let one = one.as_str();
    let two = two.as_str();
    if !allowed(one) || !allowed(two) || clash(one, two) {
        return None;
    }
    Some((one, two))
}
