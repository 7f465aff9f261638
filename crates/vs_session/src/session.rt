// The session, and the answer to a command.
ghost use Rattle.std.specs.Prelude.{◌≡◌, ◌<◌, ◌≤◌, length, string_bytes};
ghost use Rattle.vs_host.specs.Names.{names_of_file};
ghost use Rattle.vs_paged.specs.Fits.{names_of};

use crate::ending::End;
use vs_host::{Failed, Host};
use vs_machine::{FileInfo, Mark, Reply, UndoTree};
use vs_options::Options;
use vs_paged::PagedText;
use vs_text::Format;

/// After so many steps that led to another state, a change or a move syncs the text first.
pub(crate) const STEPS_BETWEEN_SYNCS: u64 = 200;

/// A file that was opened, with its swap files: the text, the line of the cursor, and the undo tree.
pub struct Session {
    pub(crate) name: String,
    // What is said of the file, where it was there.
    pub(crate) found: Option<FileInfo>,
    pub(crate) text: PagedText,
    pub(crate) cursor: u64,
    pub(crate) history: UndoTree,
    // The number of the state that was opened or last written, where there is one.
    pub(crate) saved: Option<u64>,
    // The format that was opened or last written.
    pub(crate) saved_format: Format,
    // The steps since the last acknowledged sync that led to another state, counted up to 200.
    pub(crate) steps: u64,
    // The syncs that were acknowledged, with that of the opening.
    pub(crate) acknowledged: u64,
    pub(crate) options: Options,
    ghost short: { length (string_bytes name) ≤ 200 },
    ghost named: { names_of text ≡ names_of_file (string_bytes name) },
    ghost few_steps: { steps ≤ 200 },
    ghost few_syncs: { acknowledged < text.pair.files.generation },
    ghost some_levels: { 1 ≤ options.undo_levels },
}

// A value with much in it is dropped by a call: a derived drop would stand, field by field, at each end of each function that holds one.
impl Drop for Session {
    fn drop(self) {
        let Session {
            name: _,
            found: _,
            text: _,
            cursor: _,
            history: _,
            saved: _,
            saved_format: _,
            steps: _,
            acknowledged: _,
            options: _,
        } = self;
    }
}

/// The answer to one command.
#[derive(Drop)]
pub enum Step {
    /// How the command ended, and the reply to write.
    Answer { mark: Mark, reply: Reply },
    /// `q` or `q!` was accepted. Nothing has changed.
    Quit,
}

impl Session {
    ghost use Rattle.std.specs.Prelude.{◌<◌, ◌^◌, is_ok};
    ghost use Rattle.vs_session.specs.Calls.{Finishes, FitsFolder};
    ghost use Rattle.vs_session.specs.Fits.{generation_of};

    /// Ends the session as `how` says. After an error the swap files that are left stay, and the session is gone all the same. It
    /// takes no memory.
    pub fn finish<H: Host>(self, host: &mut H, how: End) -> Result<(), Failed>
        requires room { generation_of self < 2 ^ 63 }
        requires fits { FitsFolder H.tells self (H.scene host.old).folder }
        ensures { Finishes H.tells self (H.scene host.old) (H.scene host.new) how (is_ok result) }
    {
        match how {
            End::Sync => {
                let mut session = self;
                session.sync(host)
            }
            End::Quit => {
                let Session {
                    name: _,
                    found: _,
                    text,
                    cursor: _,
                    history: _,
                    saved: _,
                    saved_format: _,
                    steps: _,
                    acknowledged: _,
                    options: _,
                } = self;
                text.end(host)
            }
        }
    }
}
