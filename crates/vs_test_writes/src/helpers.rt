// A host with files and a script, and a run over it.
ghost use Rattle.std.specs.Prelude.{◌≡◌, [], IfOk, IsTrue};
ghost use Rattle.vs_memory.specs.Memory.{folder_of};

use std::alloc::Global;
use std::test::Fail;
use vs_host::Host;
use vs_memory::MemHost;
use vs_top::{Report, run};

fn put(alloc: Global, host: &mut MemHost, name: &str, bytes: &[u8]) -> Result<(), Fail>
    ensures { host.new ≡ record host.old { base = host.new.base } }
{
    if host.calls() != 0 || host.file(name).is_some() {
        return Err(Fail::new("it is too late for the file"));
    }
    host.put(alloc, name, Vec::from_slice(alloc, bytes)?)?;
    Ok(())
}

/// A host with these files and a script.
pub(crate) fn host_of(
    alloc: Global,
    files: &[(&str, &[u8])],
    script: &[u8],
) -> Result<MemHost, Fail>
    ensures answers { IfOk result (λ host. host.answers ≡ []) }
    ensures settled { IfOk result (λ host. (folder_of host).pending ≡ []) }
{
    let mut host = MemHost::new(alloc, Vec::from_slice(alloc, script)?)?;
    for file in files {
        put(alloc, &mut host, file.0, file.1)?;
    }
    Ok(host)
}

fn words_of(alloc: Global, words: [&str; 2]) -> Result<Vec<String>, Fail> {
    let mut list = Vec::new(alloc);
    for word in words {
        list.push(String::from_str(alloc, word)?)?;
    }
    Ok(list)
}

/// Runs `edit f`.
pub(crate) fn edit_f<H: Host>(alloc: Global, host: &mut H) -> Result<Report, Fail>
    requires clock { IsTrue (H.tells).clock → (H.scene host.old).answers ≡ [] }
    requires settled { IsTrue (H.tells).folder → (H.scene host.old).folder.pending ≡ [] }
{
    let words = words_of(alloc, ["edit", "f"])?;
    Ok(run(alloc, words.as_slice(), host))
}
