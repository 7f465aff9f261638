// Laws of histories.
ghost use Rattle.vs_undo.specs.One.{OneHistory};

/// The history of a tree at its text is one, on the numbers that are kept.
pub fn one_history()
    ensures { OneHistory }
{}
