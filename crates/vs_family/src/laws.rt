// Laws of families. They do nothing: their contracts are the laws.
ghost use Rattle.std.specs.Prelude.{◌≡◌, ◌↔◌, ℕ, Bool, List, true, false};
ghost use Rattle.std.specs.Str.{bytes_eq};
ghost use Rattle.vs_host.specs.Disk.{Name};
ghost use Rattle.vs_host.specs.Names.{names_in, names_of_file, temporary};
ghost use Rattle.vs_backup.specs.Backups.{candidates};
ghost use Rattle.vs_family.specs.Family.{SharesName, any, clash, is_of_family};

/// Two files clash exactly where their families share a name; so each clashes with itself, and where one clashes with another, that
/// one does with it. The eight names that go with a file are of its family, and so are those that a backup of it may get, with the
/// names under which they are made.
pub fn sharing()
    ensures exact { (one two : Name) → clash one two ≡ true ↔ SharesName one two }
    ensures apart { (one two name : Name) → clash one two ≡ false → is_of_family one name ≡ true → is_of_family two name ≡ false }
    ensures itself { (file : Name) → clash file file ≡ true }
    ensures either { (one two : Name) → clash one two ≡ clash two one }
    ensures names { (file name : Name) → any (bytes_eq name) (names_in (names_of_file file)) ≡ true → is_of_family file name ≡ true }
    ensures backups { (file backup : Name) → any (bytes_eq backup) (candidates file) ≡ true → is_of_family file backup ≡ true }
    ensures copies { (file backup : Name) → any (bytes_eq backup) (candidates file) ≡ true → is_of_family file (temporary backup) ≡ true }
{}
