// The commands of the stress mode.
use std::process::Abort;
use std::test::Fail;
use vs_excmd::Block;
use vs_exparse::Command;
use vs_stress::{generated, preserve};

// The lines of the block of command 21.
const BLOCK: [&[u8]; 10] = [
    b"21.0", b"21.1", b"21.2", b"21.3", b"21.4", b"21.5", b"21.6", b"21.7", b"21.8", b"21.9",
];

#[test]
fn there_are_four_commands_in_turn(rt: HostRuntime) -> Result<(), Fail> {
    let alloc = rt.alloc();
    let appends = generated(alloc, 21)?;
    assert!(rt; matches!(appends.parsed, Ok(Command::Append { .. })));
    let moves = generated(alloc, 22)?;
    assert!(rt; matches!(moves.parsed, Ok(Command::Move { .. })));
    let substitutes = generated(alloc, 23)?;
    assert!(rt; matches!(substitutes.parsed, Ok(Command::Substitute { .. })));
    let undoes = generated(alloc, 24)?;
    assert!(rt; matches!(undoes.parsed, Ok(Command::Undo { number: None })));
    assert!(rt; matches!(preserve().parsed, Ok(Command::Preserve)));
    Ok(())
}

#[test]
fn a_block_has_ten_lines_with_the_number(rt: HostRuntime) -> Result<(), Fail> {
    let alloc = rt.alloc();
    let Block::Lines(lines) = generated(alloc, 21)?.block else {
        return Err(Fail::new("there is no block"));
    };
    assert!(rt; lines.len() == BLOCK.len());
    for (line, expected) in lines.iter().zip(BLOCK) {
        assert!(rt; line.bytes() == expected);
    }
    Ok(())
}
