// The images of a folder, and what is recovered of one.
ghost use Rattle.std.specs.Prelude.{◌≡◌, [], IfOk};
ghost use Rattle.vs_memory.specs.Memory.{folder_of};

use crate::given::words_of;
use std::alloc::{AllocError, Global};
use vs_memory::{Choice, Keep, MemHost};
use vs_scene::PlayErr;
use vs_top::run;

/// As many changes of names as are pending at once in a run, and all of them.
pub const PREFIXES: [u32; 6] = [0, 1, 2, 3, 4, u32::MAX];

/// What a word says is kept of each file.
pub(crate) fn keep_of(word: &str) -> Result<Keep, PlayErr> {
    match word {
        "read" => Ok(Keep::Read),
        "synced" => Ok(Keep::Synced),
        _ => match word.parse() {
            Ok(byte) => Ok(Keep::Byte(byte)),
            Err(_) => Err(PlayErr::NoStep),
        },
    }
}

/// What the words of a line say is kept; `every` stands for all bytes.
pub(crate) fn keeps_of(alloc: Global, line: &str) -> Result<Vec<Keep>, PlayErr> {
    let mut keeps = Vec::new(alloc);
    for word in line.split_whitespace() {
        if word == "every" {
            for byte in 0..=u8::MAX {
                keeps.push(Keep::Byte(byte))?;
            }
        } else {
            keeps.push(keep_of(word)?)?;
        }
    }
    Ok(keeps)
}

/// Each choice of an image with one of these.
pub(crate) fn choices_of(alloc: Global, keeps: &[Keep]) -> Result<Vec<Choice>, AllocError> {
    let mut choices = Vec::new(alloc);
    for keep in keeps {
        for names in PREFIXES {
            choices.push(Choice { names, keep: *keep })?;
        }
    }
    Ok(choices)
}

/// An image as a new host.
pub(crate) fn image_of(
    alloc: Global,
    host: &MemHost,
    choice: &Choice,
) -> Result<MemHost, AllocError>
    ensures answers { IfOk result (λ image. image.answers ≡ []) }
    ensures settled { IfOk result (λ image. (folder_of image).pending ≡ []) }
{
    let image = host.image(alloc, choice, Vec::new(alloc))?;
    Ok(image)
}

/// Runs the program with these arguments over an image. The answer is its status.
pub(crate) fn run_in(alloc: Global, image: &mut MemHost, arguments: &[String]) -> u8
    requires answers { image.old.answers ≡ [] }
    requires settled { (folder_of image.old).pending ≡ [] }
{
    run(alloc, arguments, image).status
}
