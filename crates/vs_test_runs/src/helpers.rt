// A run over a host.
ghost use Rattle.std.specs.Prelude.{◌≡◌, [], IsTrue};

use std::alloc::Global;
use std::test::Fail;
use vs_host::Host;
use vs_top::{Report, run};

fn arguments_of(alloc: Global, arguments: &[&str]) -> Result<Vec<String>, Fail> {
    let mut list = Vec::new(alloc);
    for argument in arguments {
        list.push(String::from_str(alloc, argument)?)?;
    }
    Ok(list)
}

/// Runs `edit f`.
pub(crate) fn edit_f<H: Host>(alloc: Global, host: &mut H) -> Result<Report, Fail>
    requires clock { IsTrue (H.tells).clock → (H.scene host.old).answers ≡ [] }
    requires settled { IsTrue (H.tells).folder → (H.scene host.old).folder.pending ≡ [] }
{
    let arguments = arguments_of(alloc, &["edit", "f"])?;
    Ok(run(alloc, arguments.as_slice(), host))
}
