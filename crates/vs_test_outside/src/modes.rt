// Hosts in memory, by hand: which modes their files have.
use std::alloc::Global;
use std::test::Fail;
use vs_host::Folder;
use vs_memory::MemHost;

// All may read the file.
const USUAL: u32 = 0o644;

// Its owner alone may.
const PRIVATE: u32 = 0o600;

// A host with the file `f`, which was put, and `new`, which its first call makes for the owner alone.
fn host_of_two(alloc: Global) -> Result<MemHost, Fail> {
    let mut host = MemHost::new(alloc, Vec::new(alloc))?;
    host.put(alloc, "f", Vec::from_slice(alloc, b"old")?)?;
    match host.file("new") {
        Some(_) => Err(Fail::new("the file is there")),
        None => {
            host.create_private("new")?;
            Ok(host)
        }
    }
}

/// Whether the sync succeeded.
fn sync_like(host: &mut MemHost, model: &str, name: &str) -> Result<bool, Fail> {
    match host.file(name) {
        Some(_) => Ok(host.sync_like(model, name).is_ok()),
        None => Err(Fail::new("no file")),
    }
}

#[test]
fn a_file_takes_the_mode_of_its_model(rt: HostRuntime) -> Result<(), Fail> {
    let alloc = rt.alloc();
    let mut host = host_of_two(alloc)?;
    assert!(rt; host.mode("f") == Some(USUAL));
    assert!(rt; host.mode("new") == Some(PRIVATE));
    assert!(rt; sync_like(&mut host, "f", "new")?);
    assert!(rt; host.mode("new") == Some(USUAL));
    assert!(rt; host.calls() == 2);
    Ok(())
}

#[test]
fn a_file_without_a_model_keeps_its_mode(rt: HostRuntime) -> Result<(), Fail> {
    let alloc = rt.alloc();
    let mut host = host_of_two(alloc)?;
    assert!(rt; sync_like(&mut host, "none", "new")?);
    assert!(rt; host.mode("new") == Some(PRIVATE));
    assert!(rt; host.mode("none") == None);
    Ok(())
}

#[test]
fn a_call_that_fails_leaves_the_mode(rt: HostRuntime) -> Result<(), Fail> {
    let alloc = rt.alloc();
    let mut host = host_of_two(alloc)?;
    host.fail_call(alloc, 2)?;
    assert!(rt; !sync_like(&mut host, "f", "new")?);
    assert!(rt; host.mode("new") == Some(PRIVATE));
    Ok(())
}
