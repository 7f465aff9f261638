// The opening of a session.
ghost use Rattle.std.specs.Prelude.{◌≡◌, ◌⊎◌, ◌∷◌, [], ℕ, List, Option, true, false, IfErr, IfOk, IfSome, IsErr, IsErrOf, IsTrue, OnOk, string_bytes};
ghost use Rattle.vs_faults.specs.Faults.{HasCause, IsQuiet};
ghost use Rattle.vs_host.specs.Names.{is_allowed, names_of_file};
ghost use Rattle.vs_host.specs.World.{content_of};
ghost use Rattle.vs_disk.specs.Modes.{MakesPrivate};
ghost use Rattle.vs_disk.specs.Runs.{NoneFails};
ghost use Rattle.vs_pair.specs.Acts.{Acts};
ghost use Rattle.vs_pair.specs.Steps.{BothMoved, IsFresh};
ghost use Rattle.vs_text.specs.Limits.{IsWithinLimits};
ghost use Rattle.vs_text.specs.Documents.{document_of};
ghost use Rattle.vs_machine.specs.Replies.{opening_of};
ghost use Rattle.vs_safety.specs.Turns as turns;
ghost use Rattle.vs_session.specs.Fits.{Fits, FitsUndo, HasOpened, HasSwap, IsSettled, Opens, generation_of, names_of};
ghost use Rattle.vs_session.specs.Made.{LeavesNoneMade};
ghost use Rattle.vs_session.specs.Open.{IsLook, IsReading, IsTooLarge, KeepsToLimits, OnlyLooks};
ghost use Rattle.vs_session.specs.Opened.{document_of_file, format_in, opened, sizes_of, text_in};

use crate::looking::has_file;
use crate::reading::read_file;
use crate::{OpenErr, Session};
use std::alloc::{AllocError, Global};
use vs_host::{Failed, Folder, Host, NameErr, Names};
use vs_machine::{FileInfo, Reply, UndoTree};
use vs_options::first_options;
use vs_paged::OpeningText;
use vs_text::Format;

// The names that go with a file whose name is allowed.
fn names_for(alloc: Global, name: &str) -> Result<Names, AllocError>
    requires { IsTrue (is_allowed name.now) }
    ensures { IfOk result (λ names. names ≡ names_of_file name.now) }
{
    match Names::of(alloc, name) {
        Ok(names) => Ok(names),
        Err(NameErr::NoMemory) => Err(AllocError),
        Err(NameErr::NotAllowed) => unreachable!(),
    }
}

// Whether one of the swap files is there.
fn has_swap<F: Folder>(host: &mut F, names: &Names) -> Result<bool, Failed>
    ensures there { IfOk result (λ found. found ≡ true → IsTrue F.tells.folder → HasSwap names.now (F.scene host.old).folder) }
    ensures free { IfOk result (λ found. found ≡ false → IsTrue F.tells.folder → HasSwap names.now (F.scene host.old).folder → ⊥) }
    ensures look { IsLook F.tells result (IsErr result) (F.scene host.old) (F.scene host.new) }
{
    if has_file(host, names.swp.as_str())? {
        return Ok(true);
    }
    has_file(host, names.swo.as_str())
}

// Reads a file that has no swap file, and says what it is where it is there.
fn read_text<H: Host>(
    alloc: Global,
    host: &mut H,
    name: &str,
) -> Result<(OpeningText, Option<FileInfo>), OpenErr>
    requires { IsTrue (is_allowed name.now) }
    ensures name { IfOk result (λ read. read.0.name ≡ name.now) }
    ensures text { IfOk result (λ read. IsTrue (H.tells).folder → read.0.text ≡ text_in (content_of (H.scene host.old) name.now)) }
    ensures found { IfOk result (λ read. IsTrue (H.tells).folder → read.1 ≡ sizes_of (content_of (H.scene host.old) name.now)) }
    ensures free { OnOk result (IsTrue (H.tells).folder → HasSwap (names_of_file name.now) (H.scene host.old).folder → ⊥) }
    ensures swap { IsErrOf result OpenErr.SwapFound → IsTrue (H.tells).folder → HasSwap (names_of_file name.now) (H.scene host.old).folder }
    ensures limits { KeepsToLimits H.tells result (content_of (H.scene host.old) name.now) }
    ensures no_swap { (size : ℕ) → IsErrOf result (OpenErr.TextLimit size) → IsTrue (H.tells).folder
        → HasSwap (names_of_file name.now) (H.scene host.old).folder → ⊥ }
    ensures reading { IsReading H.tells result (H.scene host.old) (H.scene host.new) }
{
    let names = names_for(alloc, name)?;
    let mut text = OpeningText::new(alloc, name)?;
    if has_swap(host, &names)? {
        return Err(OpenErr::SwapFound);
    }
    let found = read_file(alloc, host, name, &mut text)?;
    Ok((text, found))
}

// The format in which a file is opened: unix where it is not there.
fn found_format(found: Option<FileInfo>) -> Format
    ensures { (file : Option (List ℕ)) → found ≡ sizes_of file → result ≡ format_in file }
{
    match found {
        Some(info) => info.format,
        None => Format::Unix,
    }
}

impl Session {
    /// Whether one of the swap files of the file of a name is there.
    pub fn has_swap<F: Folder>(alloc: Global, host: &mut F, name: &str) -> Result<bool, OpenErr>
        requires { IsTrue (is_allowed name.now) }
        ensures there { IfOk result (λ found. found ≡ true → IsTrue F.tells.folder
            → HasSwap (names_of_file name.now) (F.scene host.old).folder) }
        ensures free { IfOk result (λ found. found ≡ false → IsTrue F.tells.folder
            → HasSwap (names_of_file name.now) (F.scene host.old).folder → ⊥) }
        ensures errors { IfErr result (λ why. (why ≡ OpenErr.Failed) ⊎ (why ≡ OpenErr.NoMemory)) }
        ensures reading { IsReading F.tells result (F.scene host.old) (F.scene host.new) }
    {
        let names = names_for(alloc, name)?;
        let found = has_swap(host, &names)?;
        Ok(found)
    }

    /// Opens the file of a name, or the text without lines where there is no file, and makes its swap files. The cursor is on
    /// the first line. Where a swap file is there already, the file is not opened (`:help swap-exists-choices`).
    pub fn open<H: Host>(alloc: Global, host: &mut H, name: &str) -> Result<Session, OpenErr>
        requires name { IsTrue (is_allowed name.now) }
        requires settled { IsTrue (H.tells).folder → IsSettled (names_of_file name.now) (H.scene host.old).folder }
        ensures fits { IfOk result (λ session. IsTrue (H.tells).folder → let document = document_of_file (content_of (H.scene host.old) name.now) in
            Fits session (H.scene host.new).folder (opened name.now (content_of (H.scene host.old) name.now)).state (turns.opened document)) }
        ensures file { IfOk result (λ session. IsTrue (H.tells).folder → HasOpened (opened name.now (content_of (H.scene host.old) name.now)) session) }
        ensures name { IfOk result (λ session. (string_bytes session.name ≡ name.now) × (names_of session ≡ names_of_file name.now)) }
        ensures generation { IfOk result (λ session. generation_of session ≡ 2) }
        ensures undo { IfOk result (λ session. FitsUndo session) }
        ensures moved { OnOk result (IsTrue (H.tells).folder → BothMoved (names_of_file name.now) (H.scene host.new).folder) }
        ensures cleared { OnOk result (IsTrue (H.tells).folder → LeavesNoneMade (H.scene host.old).folder (H.scene host.new).folder) }
        ensures swap { IsErrOf result OpenErr.SwapFound → IsTrue (H.tells).folder → HasSwap (names_of_file name.now) (H.scene host.old).folder }
        ensures barred { IsTrue (H.tells).folder → HasSwap (names_of_file name.now) (H.scene host.old).folder
            → IsErrOf result OpenErr.SwapFound ⊎ IsErrOf result OpenErr.Failed ⊎ IsErrOf result OpenErr.NoMemory }
        ensures barred_looks { IsTrue (H.tells).folder → HasSwap (names_of_file name.now) (H.scene host.old).folder
            → OnlyLooks H.tells (H.scene host.old) (H.scene host.new) }
        ensures limit { (size : ℕ) → IsErrOf result (OpenErr.TextLimit size) → IsTooLarge H.tells size (content_of (H.scene host.old) name.now) }
        ensures over { IsTrue (H.tells).folder →
            IfSome (content_of (H.scene host.old) name.now) (λ bytes. ¬ (IsWithinLimits ((document_of bytes).text)) → IsErr result) }
        ensures acts { Acts H.tells (Opens name.now) (H.scene host.old) (H.scene host.new) }
        ensures modes { MakesPrivate H.tells (H.scene host.old) (H.scene host.new) }
        ensures looks { IsErr result → ¬ (IsErrOf result OpenErr.Failed) → OnlyLooks H.tells (H.scene host.old) (H.scene host.new) }
        ensures none { OnOk result (NoneFails H.tells (H.scene host.old) (H.scene host.new)) }
        ensures cause { HasCause (H.scene host.old).folder_faults (H.scene host.new).folder_faults (IsErrOf result OpenErr.Failed) }
        ensures quiet { IsQuiet (H.scene host.old).folder_faults (H.scene host.new).folder_faults (IsErrOf result OpenErr.Failed) }
    {
        let kept = String::from_str(alloc, name)?;
        let history = UndoTree::new(alloc)?;
        let (opening, found) = read_text(alloc, host, name)?;
        let format = found_format(found);
        let text = opening.start(host, format)?;
        let cursor = text.len().min(1);
        Ok(Session {
            name: kept,
            found,
            text,
            cursor,
            history,
            saved: Some(0),
            saved_format: format,
            steps: 0,
            acknowledged: 1,
            options: first_options(format),
        })
    }

    /// The first reply: the name and size of the file, or that it is new.
    pub fn opening(&self) -> Reply
        ensures { result ≡ opening_of (string_bytes self.now.name) self.now.found }
    {
        match self.found {
            Some(info) => Reply::opened(&self.name, info),
            None => Reply::opened_new(&self.name),
        }
    }
}
