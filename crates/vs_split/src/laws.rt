// Laws of the script of two sessions. They do nothing: their contracts are the laws.
ghost use Rattle.std.specs.Prelude.{◌≡◌, ℕ, List};
ghost use Rattle.vs_script.specs.Script.{commands_of, whole_of};
ghost use Rattle.vs_family.specs.declared.which.Which.{Which};
ghost use Rattle.vs_split.specs.Split.{commands_for, items_of, whole_items_of};
ghost use Rattle.vs_split.specs.Tags.{lines_for};

/// The commands of each session are those of its own lines, however the lines of both stand; and so are those that are whole in the
/// first lines of a script.
pub fn dividing()
    ensures commands { (which : Which) (lines : List (List ℕ)) → commands_for which (items_of lines) ≡ commands_of (lines_for which lines) }
    ensures whole { (which : Which) (lines : List (List ℕ)) → commands_for which (whole_items_of lines) ≡ whole_of (lines_for which lines) }
{}
