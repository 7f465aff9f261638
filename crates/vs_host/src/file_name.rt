// Names in the folder that are owned.
ghost use Rattle.std.specs.Prelude.{◌≡◌, ◌++◌, IfOk};
ghost use Rattle.vs_host.specs.Names.{hidden};

use std::alloc::{AllocError, Global};
use std::marker::Model;

/// A name in the folder, as text.
#[derive(Debug, Drop)]
pub struct FileName {
    text: String,
}

impl Model for FileName {
    ghost use Rattle.std.specs.Prelude.{List, ℕ};
    ghost use Rattle.std.specs.String.{string_bytes};

    ghost Value = { List ℕ };

    ghost view = { λ name. string_bytes name.text };
}

impl FileName {
    /// The name as text.
    pub fn as_str(&self) -> &str
        ensures { result.now ≡ self.now }
    {
        self.text.as_str()
    }

    // the name with this ending
    pub(crate) fn ending_in(alloc: Global, name: &str, ending: &str) -> Result<FileName, AllocError>
        ensures { IfOk result (λ named. named ≡ name.now ++ ending.now) }
    {
        let text = format!(in alloc; "{name}{ending}")?;
        Ok(FileName { text })
    }

    // the same with a dot before the name, unless it begins with one
    pub(crate) fn hidden(alloc: Global, name: &str, ending: &str) -> Result<FileName, AllocError>
        ensures { IfOk result (λ named. named ≡ hidden name.now ++ ending.now) }
    {
        let dot = if name.starts_with('.') { "" } else { "." };
        let text = format!(in alloc; "{dot}{name}{ending}")?;
        Ok(FileName { text })
    }
}
