// What is there before a run, and a run over it.
ghost use Rattle.std.specs.Prelude.{◌≡◌, [], IfOk};
ghost use Rattle.vs_memory.specs.Memory.{folder_of};

use std::alloc::{AllocError, Global};
use vs_memory::{Choice, Keep, MemHost};
use vs_scene::PlayErr;
use vs_top::{Report, run};

#[derive(Drop)]
pub struct File {
    pub name: String,
    pub bytes: Vec<u8>,
}

/// What is there before a run: the folder that an earlier one left, files beside those, a script, and the clock's answer.
pub struct Given {
    pub left: Option<MemHost>,
    pub files: Vec<File>,
    pub script: Vec<u8>,
    pub clock: u64,
}

// A value with much in it is dropped by a call.
impl Drop for Given {
    fn drop(self) {
        let Given {
            left: _,
            files: _,
            script: _,
            clock: _,
        } = self;
    }
}

impl Given {
    /// Nothing.
    pub(crate) fn new(alloc: Global) -> Given {
        Given {
            left: None,
            files: Vec::new(alloc),
            script: Vec::new(alloc),
            clock: 0,
        }
    }
}

/// Which call fails, and after which call each one fails. Calls are counted from 1.
#[derive(Clone, Copy, Drop)]
pub struct Plan {
    pub failing: u64,
    pub stop: u64,
}

/// No call fails.
pub const UNHINDERED: Plan = Plan {
    failing: 0,
    stop: u64::MAX,
};

/// A folder as it is read, with each change of names.
pub const AS_READ: Choice = Choice {
    names: u32::MAX,
    keep: Keep::Read,
};

fn put(alloc: Global, host: &mut MemHost, file: &File) -> Result<(), PlayErr>
    ensures { host.new ≡ record host.old { base = host.new.base } }
{
    let name = file.name.as_str();
    if host.calls() != 0 || host.file(name).is_some() {
        return Err(PlayErr::Twice);
    }
    host.put(alloc, name, Vec::from_slice(alloc, &file.bytes)?)?;
    Ok(())
}

// A host with the folder that is left, where there is one.
fn first_host(alloc: Global, given: &Given) -> Result<MemHost, AllocError>
    ensures answers { IfOk result (λ host. host.answers ≡ []) }
    ensures log { IfOk result (λ host. host.log ≡ []) }
{
    let script = Vec::from_slice(alloc, &given.script)?;
    match &given.left {
        Some(host) => host.image(alloc, &AS_READ, script),
        None => MemHost::new(alloc, script),
    }
}

/// A host with what is given.
fn host_of(alloc: Global, given: &Given, plan: Plan) -> Result<MemHost, PlayErr>
    ensures answers { IfOk result (λ host. host.answers ≡ []) }
    ensures settled { IfOk result (λ host. (folder_of host).pending ≡ []) }
{
    let mut host = first_host(alloc, given)?;
    host.set_clock(given.clock);
    host.fail_call(alloc, plan.failing)?;
    host.stop_after(plan.stop);
    for file in &given.files {
        put(alloc, &mut host, file)?;
    }
    Ok(host)
}

/// A run and the host after it.
#[derive(Drop)]
pub struct Ran {
    pub report: Report,
    pub host: MemHost,
}

/// Runs the program with these arguments over what is given.
pub(crate) fn run_over(
    alloc: Global,
    given: &Given,
    plan: Plan,
    arguments: &[String],
) -> Result<Ran, PlayErr> {
    let mut host = host_of(alloc, given, plan)?;
    let report = run(alloc, arguments, &mut host);
    Ok(Ran { report, host })
}

/// The words of a line.
pub(crate) fn words_of(alloc: Global, line: &str) -> Result<Vec<String>, AllocError> {
    let mut words = Vec::new(alloc);
    for word in line.split_whitespace() {
        words.push(String::from_str(alloc, word)?)?;
    }
    Ok(words)
}

/// Whether two runs came to the same.
pub(crate) fn are_same(one: &Ran, other: &Ran) -> bool {
    one.report.status == other.report.status
        && one.report.marks == other.report.marks
        && one.host.calls() == other.host.calls()
        && one.host.output() == other.host.output()
}
