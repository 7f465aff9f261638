// Laws of the names that go with one file. They do nothing: their contracts are the laws.
ghost use Rattle.std.specs.Prelude.{◌≡◌, false, IsTrue};
ghost use Rattle.std.specs.List.{AllByRecursion};
ghost use Rattle.vs_host.specs.Disk.{Name};
ghost use Rattle.vs_host.specs.declared.names.Names.{Names};
ghost use Rattle.vs_host.specs.Names.{AllDiffer, AreNames, IsNameInFolder, is_allowed, names_in, temporary};

/// The eight names that go with one file differ, and each of them is text that can stand in the folder. No file may have a
/// name under which another one is made.
pub fn laws_of_names()
    ensures apart { (names : Names) → AreNames names → AllDiffer (names_in names) }
    ensures inside { (names : Names) → AreNames names → AllByRecursion IsNameInFolder (names_in names) }
    ensures temporary { (name : Name) → is_allowed (temporary name) ≡ false }
{}
