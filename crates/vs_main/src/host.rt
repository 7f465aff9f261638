// The files of the current folder, standard input, standard output and the clock of the system.
ghost use Rattle.std.specs.Prelude.{◌≡◌, [], false, Ok, IfOk, OnOk, IsErr};
ghost use Rattle.vs_faults.specs.Faults.{HasCause};
ghost use Rattle.vs_host.specs.Untold.{no_folder, never};

use crate::retry::{read_input, retried};
use crate::rights::take_rights;
use std::fs::{self, File, OpenOptions};
use std::io::{self, ErrorKind, Write};
use std::os::unix::fs::{FileExt, OpenOptionsExt};
use std::time::{SystemTime, UNIX_EPOCH};
use vs_host::{Clock, Failed, Folder, Host, Out, Script, World};

/// A file that stays open, so that a file of many pages is opened once. It is closed before any name may lead to another file.
#[derive(Drop)]
struct OpenFile {
    /// Its name; `None` where there was no memory for it, and then the file is opened again for the next call.
    name: Option<String>,
    file: File,
    /// Whether its mode may have changed since it was opened, so that a sync of its bytes alone is not enough.
    has_new_mode: bool,
}

impl OpenFile {
    fn new(rt: &HostRuntime, name: &str, file: File) -> OpenFile {
        OpenFile {
            name: String::from_str(rt.alloc(), name).ok(),
            file,
            has_new_mode: false,
        }
    }

    fn has_name(&self, name: &str) -> bool {
        match &self.name {
            Some(own) => own.as_str() == name,
            None => false,
        }
    }

    /// Syncs its bytes and how many they are, and its mode where that may have changed. Its times need not last.
    fn sync(&self) -> io::Result<()> {
        if self.has_new_mode {
            return self.file.sync_all();
        }
        self.file.sync_data()
    }
}

/// The real outside. It tells nothing of contents; each refusal of the system counts as a fault of the call. A name that no
/// regular file has, such as that of a folder, is a fault too.
#[derive(Drop)]
pub struct RealHost {
    rt: HostRuntime,
    /// The file that was written last, up to its sync, so that the sync is told of a write that failed after the system had taken it.
    writing: Option<OpenFile>,
    /// The file that was read last.
    reading: Option<OpenFile>,
    /// The clock's last answer, for where it cannot be read.
    last_answer: u64,
    script_faults: u64,
    out_faults: u64,
    folder_faults: u64,
}

impl RealHost {
    pub fn new(rt: HostRuntime) -> RealHost {
        RealHost {
            rt,
            writing: None,
            reading: None,
            last_answer: 0,
            script_faults: 0,
            out_faults: 0,
            folder_faults: 0,
        }
    }
}

impl World for RealHost {
    ghost tells = { record { folder = false; output = false; script = false; clock = false } };

    ghost scene = { λ s. record {
      folder = no_folder;
      output = [];
      script = [];
      answers = [];
      script_faults = s.script_faults;
      out_faults = s.out_faults;
      folder_faults = s.folder_faults;
      trace = [];
    } };

    ghost plays = { λ _ _ _. Unit {0} };

    ghost is_folder = { λ host told. never told };

    ghost newest = { λ host told. never told };

    ghost counted = { λ host told. never told };
}

impl Script for RealHost {
    fn read(&mut self, into: &mut [u8]) -> Result<usize, Failed> {
        match read_input(&self.rt, into) {
            Ok(count) => Ok(count),
            Err(_) => {
                self.script_faults = self.script_faults.saturating_add(1);
                Err(Failed)
            }
        }
    }
}

impl Out for RealHost {
    fn write(&mut self, piece: &[u8]) -> Result<(), Failed> {
        match self.rt.stdout().write_all(piece) {
            Ok(()) => Ok(()),
            Err(_) => {
                self.out_faults = self.out_faults.saturating_add(1);
                Err(Failed)
            }
        }
    }
}

fn seconds(rt: &HostRuntime) -> Option<u64> {
    let now = SystemTime::now(rt).ok()?;
    let since = now.duration_since(UNIX_EPOCH).ok()?;
    Some(since.as_secs())
}

impl Clock for RealHost {
    fn now(&mut self) -> u64 {
        if let Some(now) = seconds(&self.rt) {
            self.last_answer = now;
        }
        self.last_answer
    }
}

/// Whether a regular file has the name. What else has it, a link among them, is refused.
fn is_there(rt: &HostRuntime, name: &str) -> io::Result<bool> {
    match retried(|| fs::symlink_metadata(rt, name)) {
        Ok(found) if found.is_file() => Ok(true),
        Ok(_) => Err(io::Error::from(ErrorKind::InvalidInput)),
        Err(error) if error.kind() == ErrorKind::NotFound => Ok(false),
        Err(error) => Err(error),
    }
}

// Anybody may read and write the file, less what the mask of the process takes away.
const USUAL_MODE: u32 = 0o666;

// The owner alone may.
const PRIVATE_MODE: u32 = 0o600;

fn create_empty(rt: &HostRuntime, name: &str, mode: u32) -> io::Result<()> {
    OpenOptions::new()
        .write(true)
        .create_new(true)
        .mode(mode)
        .open(rt, name)?;
    Ok(())
}

fn size_of(rt: &HostRuntime, name: &str) -> io::Result<u64> {
    Ok(retried(|| fs::metadata(rt, name))?.len())
}

fn open_to_write(rt: &HostRuntime, name: &str) -> io::Result<File> {
    OpenOptions::new().write(true).open(rt, name)
}

fn cut_to(rt: &HostRuntime, name: &str, len: u64) -> io::Result<()> {
    open_to_write(rt, name)?.set_len(len)
}

/// Syncs a file or, as `.`, the current folder, whose names it keeps.
fn sync_open(rt: &HostRuntime, name: &str) -> io::Result<()> {
    File::open(rt, name)?.sync_all()
}

/// The file of this name where it is the one that is open. Another one is closed.
fn take_open(kept: &mut Option<OpenFile>, name: &str) -> Option<OpenFile> {
    let open = kept.take()?;
    if open.has_name(name) {
        return Some(open);
    }
    None
}

impl RealHost {
    /// Closes what is open, since a name is going to lead to another file or to none.
    fn close_files(&mut self)
        ensures frame { self.new ≡ record self.old { writing = self.new.writing; reading = self.new.reading } }
    {
        self.writing = None;
        self.reading = None;
    }

    fn read_open(&mut self, name: &str, at: u64, into: &mut [u8]) -> io::Result<()>
        ensures frame { self.new ≡ record self.old { reading = self.new.reading } }
    {
        let open = match take_open(&mut self.reading, name) {
            Some(open) => open,
            None => OpenFile::new(&self.rt, name, File::open(&self.rt, name)?),
        };
        open.file.read_exact_at(into, at)?;
        self.reading = Some(open);
        Ok(())
    }

    fn write_open(&mut self, name: &str, at: u64, piece: &[u8]) -> io::Result<()>
        ensures frame { self.new ≡ record self.old { writing = self.new.writing } }
    {
        let open = match take_open(&mut self.writing, name) {
            Some(open) => open,
            None => OpenFile::new(&self.rt, name, open_to_write(&self.rt, name)?),
        };
        open.file.write_all_at(piece, at)?;
        self.writing = Some(open);
        Ok(())
    }

    fn sync_written(&mut self, name: &str) -> io::Result<()>
        ensures frame { self.new ≡ record self.old { writing = self.new.writing } }
    {
        match take_open(&mut self.writing, name) {
            Some(open) => open.sync(),
            None => sync_open(&self.rt, name),
        }
    }

    /// Gives the file the rights of the model. It stays open, since with these its name may open it no more.
    fn copy_rights(&mut self, model: &str, name: &str) -> io::Result<()>
        ensures frame { self.new ≡ record self.old { writing = self.new.writing } }
    {
        let found = retried(|| fs::metadata(&self.rt, model))?;
        let mut open = match take_open(&mut self.writing, name) {
            Some(open) => open,
            None => OpenFile::new(&self.rt, name, open_to_write(&self.rt, name)?),
        };
        let answer = take_rights(&found, &open.file);
        open.has_new_mode = true;
        self.writing = Some(open);
        answer
    }

    fn folder_answer<T: Drop>(&mut self, answer: io::Result<T>) -> Result<T, Failed>
        ensures ok { IfOk result (λ value. answer ≡ Ok value) }
        ensures cause { HasCause self.old.folder_faults self.new.folder_faults (IsErr result) }
        ensures quiet { OnOk result (self.new.folder_faults ≡ self.old.folder_faults) }
        ensures frame { self.new ≡ record self.old { folder_faults = self.new.folder_faults } }
    {
        match answer {
            Ok(value) => Ok(value),
            Err(_) => {
                self.folder_faults = self.folder_faults.saturating_add(1);
                Err(Failed)
            }
        }
    }
}

impl Folder for RealHost {
    fn has(&mut self, name: &str) -> Result<bool, Failed> {
        let answer = is_there(&self.rt, name);
        self.folder_answer(answer)
    }

    fn create(&mut self, name: &str) -> Result<(), Failed> {
        self.close_files();
        let answer = create_empty(&self.rt, name, USUAL_MODE);
        self.folder_answer(answer)
    }

    fn create_private(&mut self, name: &str) -> Result<(), Failed> {
        self.close_files();
        let answer = create_empty(&self.rt, name, PRIVATE_MODE);
        self.folder_answer(answer)
    }

    fn len(&mut self, name: &str) -> Result<u64, Failed> {
        let answer = size_of(&self.rt, name);
        self.folder_answer(answer)
    }

    fn read_at(&mut self, name: &str, at: u64, into: &mut [u8]) -> Result<(), Failed> {
        let answer = self.read_open(name, at, into);
        self.folder_answer(answer)
    }

    fn write_at(&mut self, name: &str, at: u64, piece: &[u8]) -> Result<(), Failed> {
        let answer = self.write_open(name, at, piece);
        self.folder_answer(answer)
    }

    fn cut(&mut self, name: &str, len: u64) -> Result<(), Failed> {
        let answer = cut_to(&self.rt, name, len);
        self.folder_answer(answer)
    }

    fn sync(&mut self, name: &str) -> Result<(), Failed> {
        let answer = self.sync_written(name);
        self.folder_answer(answer)
    }

    // A file whose rights cannot be set is still a file, so that is no fault.
    fn sync_like(&mut self, model: &str, name: &str) -> Result<(), Failed> {
        let _ = self.copy_rights(model, name);
        let answer = self.sync_written(name);
        self.folder_answer(answer)
    }

    fn rename(&mut self, from: &str, to: &str) -> Result<(), Failed> {
        self.close_files();
        let answer = retried(|| fs::rename(&self.rt, from, to));
        self.folder_answer(answer)
    }

    fn remove(&mut self, name: &str) -> Result<(), Failed> {
        self.close_files();
        let answer = retried(|| fs::remove_file(&self.rt, name));
        self.folder_answer(answer)
    }

    fn sync_names(&mut self) -> Result<(), Failed> {
        let answer = sync_open(&self.rt, ".");
        self.folder_answer(answer)
    }

    fn damaged(&mut self) {
        self.folder_faults = self.folder_faults.saturating_add(1);
    }
}

impl Host for RealHost {}
