// Which state is the saved one after states were forgotten.
ghost use Rattle.std.specs.Prelude.{◌≡◌, ℕ, List};
ghost use Rattle.vs_undo.specs.History.{History, IsHistory};
ghost use Rattle.vs_machine.specs.Saved.{number_after, saved_after};

use vs_undo::UndoTree;

// The number of a state after a change, by the number that the oldest state had before.
fn number_after(history: &UndoTree, oldest: u64, number: u64) -> Option<u64>
    ensures { result ≡ number_after oldest history.now.nodes number }
{
    if number == oldest {
        return Some(0);
    }
    if number == 0 || !history.kept(number) {
        return None;
    }
    Some(number)
}

/// The number of the saved state after an answer, where there is one still. `oldest` is the answer's.
///
/// Where the saved state has become the oldest one, it is state 0. Where it was forgotten, there is none (`:help 'undolevels'`).
pub fn saved_after(history: &UndoTree, oldest: Option<u64>, saved: Option<u64>) -> Option<u64>
    ensures is { result ≡ saved_after oldest history.now.nodes saved }
    ensures history { (text : List (List ℕ)) (past : History) → IsHistory history.now text past
        → result ≡ saved_after oldest past.links.nodes saved }
{
    match (oldest, saved) {
        (Some(oldest), Some(saved)) => number_after(history, oldest, saved),
        (None, _) | (_, None) => saved,
    }
}
