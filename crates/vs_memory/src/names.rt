// The name changes of a folder in memory.
ghost use Rattle.std.specs.Prelude.{◌≡◌, ◌<◌, ℕ, All, IfSome};
ghost use Rattle.vs_memory.specs.Folders.{IsBelow};
ghost use Rattle.vs_memory.specs.Images.{names_after};

/// A change of the names. The file that was made has this number.
#[derive(Drop)]
pub enum NameChange {
    Create(String, usize),
    Rename(String, String),
    Remove(String),
}

/// The number of the file that a name leads to after these changes: goes back over them, and over a rename from the new name
/// to the old one.
pub fn number_of(changes: &[NameChange], name: &str) -> Option<usize>
    ensures value { result ≡ names_after changes.now name.now }
    ensures below { (made : ℕ) → All (IsBelow made) changes.now → IfSome result (λ number. number < made) }
{
    let mut name = name;
    let mut i = changes.len();
    while i > 0 {
        i -= 1;
        match &changes[i] {
            NameChange::Create(made, number) => {
                if made.as_str() == name {
                    return Some(*number);
                }
            }
            NameChange::Rename(from, to) => {
                if to.as_str() == name {
                    name = from.as_str();
                } else if from.as_str() == name {
                    return None;
                }
            }
            NameChange::Remove(gone) => {
                if gone.as_str() == name {
                    return None;
                }
            }
        }
    }
    None
}
