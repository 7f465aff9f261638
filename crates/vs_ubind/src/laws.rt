// Laws of the data of undo files.
ghost use Rattle.vs_ubind.specs.One.{GivesBack, OneBound, SomeMeaning};

/// Data that keeps the rules stands for some tree; `one_meaning` says that it stands for no other.
pub fn some_meaning()
    ensures { SomeMeaning }
{}

/// At a text, data that keeps the rules has one history at most, on the numbers that are kept.
pub fn one_bound()
    ensures { OneBound }
{}

/// Every number that is kept gives the text that stood there: an undo file of a history at a text is read as that history there.
pub fn gives_back()
    ensures { GivesBack }
{}
