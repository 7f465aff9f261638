// Names as docs/FORMATS.md gives them, by hand.
use std::test::Fail;
use vs_host::{NameErr, Names, allowed, laws_of_names};

fn kept(names: &Names) -> [&str; 4] {
    let file = names.file.as_str();
    let undo = names.undo.as_str();
    [file, names.swp.as_str(), names.swo.as_str(), undo]
}

fn temporaries(names: &Names) -> [&str; 4] {
    let file = names.file_new.as_str();
    let undo = names.undo_new.as_str();
    [file, names.swp_new.as_str(), names.swo_new.as_str(), undo]
}

#[test]
fn a_file_has_seven_names_beside_its_own(rt: HostRuntime) -> Result<(), Fail> {
    let names = Names::of(rt.alloc(), "a.c").ok().ok_or("it is allowed")?;
    let named = ["a.c", ".a.c.swp", ".a.c.swo", ".a.c.un~"];
    let made = [
        "a.c.vsnew",
        ".a.c.swp.vsnew",
        ".a.c.swo.vsnew",
        ".a.c.un~.vsnew",
    ];
    assert!(rt; kept(&names) == named);
    assert!(rt; temporaries(&names) == made);
    laws_of_names();
    Ok(())
}

#[test]
fn a_hidden_file_gets_no_second_dot(rt: HostRuntime) -> Result<(), Fail> {
    let names = Names::of(rt.alloc(), ".rc").ok().ok_or("it is allowed")?;
    let named = [".rc", ".rc.swp", ".rc.swo", ".rc.un~"];
    assert!(rt; kept(&names) == named);
    Ok(())
}

#[test]
fn other_names_are_refused(rt: HostRuntime) {
    for name in ["", ".", "..", "a b", "a/b", "caf\u{e9}", "notes.vsnew"] {
        assert!(rt; !allowed(name), "{name}");
    }
    assert!(rt; Names::of(rt.alloc(), "a/b").err() == Some(NameErr::NotAllowed));
}
