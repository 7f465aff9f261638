// Arguments of the stress mode, and the line that it writes.
use std::process::Abort;
use std::test::Fail;
use vs_stress::{count_of, summary_line};

// Arguments, and the numbers of commands that they say.
const COUNTS: [(&str, Option<u64>); 12] = [
    ("1", Some(1)),
    ("000001", Some(1)),
    ("100000", Some(100_000)),
    ("100001", None),
    ("0", None),
    ("000000", None),
    ("0100001", None),
    ("+1", None),
    ("-1", None),
    ("", None),
    ("1x", None),
    (" 1", None),
];

#[test]
fn a_number_of_commands_has_six_digits_at_most(rt: HostRuntime) {
    for (word, count) in COUNTS {
        assert!(rt; count_of(word) == count, "{word}");
    }
}

#[test]
fn the_line_has_its_numbers_in_order(rt: HostRuntime) -> Result<(), Fail> {
    let line = summary_line(rt.alloc(), 201, 510, 151, 3, [0xa5; 32])?;
    let expected =
        b"stress 201: 510 lines, 151 changes, 3 syncs, a5a5a5a5a5a5a5a5a5a5a5a5a5a5a5a5a5a5a5a5a5a5a5a5a5a5a5a5a5a5a5a5\n";
    assert!(rt; line.as_slice() == expected.as_slice());
    Ok(())
}
