// What `:set` does.
ghost use Rattle.std.specs.Prelude.{◌≡◌, ◌≤◌, ◌+◌, ◌++◌, Some, length};
ghost use Rattle.vs_exparse.specs.Argument.{setting_of};
ghost use Rattle.vs_exparse.specs.Form.{HasSettingForm};
ghost use Rattle.vs_options.specs.Options.{first_options, full_text, number, number_text, options_with, words};

use arrayvec::ArrayVec;
use itoa::Buffer;
use vs_backup::{CopyMode, WriteOptions};
use vs_exparse::Setting;
use vs_text::Format;

/// The options of a session.
#[derive(Clone, Copy, Debug, PartialEq, Eq)]
pub struct Options {
    /// How the file is written.
    pub write: WriteOptions,
    /// Each write of the file writes its undo file too (`:help 'undofile'`).
    pub undofile: bool,
    /// The number of changes that are kept, from 1 to 1,000,000 (`:help 'undolevels'`).
    pub undo_levels: u32,
}

/// The options with which a file of this format is opened: `nobackup`, `writebackup`, `backupcopy=auto`, `noundofile` and
/// `undolevels=1000`.
pub fn first_options(format: Format) -> Options
    ensures { result ≡ first_options format }
{
    Options {
        write: WriteOptions {
            backup: false,
            writebackup: true,
            copy: CopyMode::Auto,
            format,
        },
        undofile: false,
        undo_levels: 1000,
    }
}

/// The options after `:set` with this setting.
pub fn set(options: &Options, setting: Setting) -> Options
    ensures { result ≡ options_with options.now setting }
{
    let mut options = *options;
    match setting {
        Setting::Backup(on) => options.write.backup = on,
        Setting::WriteBackup(on) => options.write.writebackup = on,
        Setting::CopyYes => options.write.copy = CopyMode::Yes,
        Setting::CopyNo => options.write.copy = CopyMode::No,
        Setting::CopyAuto => options.write.copy = CopyMode::Auto,
        Setting::UndoFile(on) => options.undofile = on,
        Setting::UndoLevels(levels) => options.undo_levels = levels,
        Setting::Unix => options.write.format = Format::Unix,
        Setting::Dos => options.write.format = Format::Dos,
    }
    options
}

fn add(text: &mut ArrayVec<u8, 32>, bytes: &[u8])
    requires { length text.old.items + length bytes.now ≤ 32 }
    ensures added { text.new.items ≡ text.old.items ++ bytes.now }
    ensures short { length text.new.items ≤ 32 }
{
    for byte in bytes {
        text.push(*byte);
    }
}

/// A setting in full, without its number where it has one.
fn words(setting: Setting) -> &'static [u8]
    ensures text { result.now ≡ words setting }
    ensures short { length result.now ≤ 15 }
{
    match setting {
        Setting::Backup(true) => b"backup",
        Setting::Backup(false) => b"nobackup",
        Setting::WriteBackup(true) => b"writebackup",
        Setting::WriteBackup(false) => b"nowritebackup",
        Setting::UndoFile(true) => b"undofile",
        Setting::UndoFile(false) => b"noundofile",
        Setting::CopyYes => b"backupcopy=yes",
        Setting::CopyNo => b"backupcopy=no",
        Setting::CopyAuto => b"backupcopy=auto",
        Setting::UndoLevels(_) => b"undolevels=",
        Setting::Unix => b"fileformat=unix",
        Setting::Dos => b"fileformat=dos",
    }
}

fn number(setting: Setting) -> Option<u32>
    ensures { result ≡ number setting }
{
    match setting {
        Setting::UndoLevels(levels) => Some(levels),
        Setting::Backup(_)
        | Setting::WriteBackup(_)
        | Setting::UndoFile(_)
        | Setting::CopyYes
        | Setting::CopyNo
        | Setting::CopyAuto
        | Setting::Unix
        | Setting::Dos => None,
    }
}

fn add_number(text: &mut ArrayVec<u8, 32>, number: Option<u32>)
    requires { length text.old.items ≤ 22 }
    ensures added { text.new.items ≡ text.old.items ++ number_text number }
    ensures short { length text.new.items ≤ 32 }
{
    if let Some(number) = number {
        let mut digits = Buffer::new();
        add(text, digits.format(number).as_bytes());
    }
}

/// The setting as it is written in full, which is what `:set` answers. `:set` reads it as this setting.
pub fn full_text(setting: Setting) -> ArrayVec<u8, 32>
    ensures text { result.items ≡ full_text setting }
    ensures short { length result.items ≤ 32 }
    ensures read { HasSettingForm setting → setting_of (full_text setting) ≡ Some setting }
{
    let mut text = ArrayVec::new();
    add(&mut text, words(setting));
    add_number(&mut text, number(setting));
    text
}
