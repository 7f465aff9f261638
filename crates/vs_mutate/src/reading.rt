// A job, carried out.

ghost use Rattle.std.specs.Prelude.{◌≡◌, IfOk};
ghost use Rattle.vs_mutate.specs.Tallies.{IsTally, answers};

use crate::mutation::hostile_file;
use crate::numbers::Numbers;
use crate::tally::Tally;
use crate::words::Job;
use std::alloc::{AllocError, Global};
use vs_ufile::decode;

/// Makes the files of a job, decodes each, and counts the answers.
pub fn read_all(alloc: Global, job: Job) -> Result<Tally, AllocError>
    // Each file is counted once.
    ensures count { IfOk result (λ tally. answers tally ≡ job.files) }
    // What is counted are answers of the format to some bytes.
    ensures told { IfOk result (λ tally. IsTally job.files tally) }
{
    let mut numbers = Numbers::new(job.seed);
    let mut tally = Tally::none();
    for number in 0..job.files {
        let file = hostile_file(alloc, &mut numbers, number, job)?;
        let answer = decode(alloc, &file);
        tally.count(&file, &answer);
    }
    Ok(tally)
}
