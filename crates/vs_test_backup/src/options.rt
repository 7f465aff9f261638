// Lines of `:set`, what they answer, and the options after them.
use arrayvec::ArrayVec;
use std::process::Abort;
use std::test::Fail;
use vs_backup::{CopyMode, WriteOptions};
use vs_exparse::{Command, ExErr, Parsed, parse};
use vs_options::{Options, first_options, full_text, set};
use vs_text::Format;

// What a line answers. It changes the options unless it is refused.
fn answer(options: &mut Options, line: &[u8]) -> Result<ArrayVec<u8, 32>, ExErr> {
    match parse(line)? {
        Parsed::Command(Command::Set { setting }) => {
            *options = set(options, setting);
            Ok(full_text(setting))
        }
        _ => Err(ExErr::E492),
    }
}

/// Each line, after those above it, answers what stands beside it.
macro_rules! answers {
    ($rt:ident, $options:ident; $($line:literal => $answer:expr,)+) => {
        let rows: &[(&[u8], Result<&'static [u8], ExErr>)] = &[$(($line, $answer)),+];
        for (line, expected) in rows {
            let answered = answer(&mut $options, line);
            let text = match &answered {
                Ok(text) => Ok(text.as_slice()),
                Err(error) => Err(*error),
            };
            assert_eq!($rt; text, *expected, "of {line:?}");
        }
    };
}

#[test]
fn options_are_set_and_told_in_full(rt: HostRuntime) -> Result<(), Fail> {
    let mut options = first_options(Format::Unix);
    answers! { rt, options;
        b"set bk" => Ok(b"backup"),
        b"set nowb" => Ok(b"nowritebackup"),
        b"set bkc=yes" => Ok(b"backupcopy=yes"),
        b"set udf" => Ok(b"undofile"),
        b"set ul=002" => Ok(b"undolevels=2"),
        b"set ff=dos" => Ok(b"fileformat=dos"),
        b"set bkc=maybe" => Err(ExErr::E474),
        b"set tw=3" => Err(ExErr::E518),
    }
    let kept = Options {
        write: WriteOptions {
            backup: true,
            writebackup: false,
            copy: CopyMode::Yes,
            format: Format::Dos,
        },
        undofile: true,
        undo_levels: 2,
    };
    assert!(rt; options == kept);
    Ok(())
}

#[test]
fn each_name_sets_its_option(rt: HostRuntime) -> Result<(), Fail> {
    let mut options = first_options(Format::Unix);
    answers! { rt, options;
        b"set backup" => Ok(b"backup"),
        b"set nobk" => Ok(b"nobackup"),
        b"set nobackup" => Ok(b"nobackup"),
        b"set nowritebackup" => Ok(b"nowritebackup"),
        b"set wb" => Ok(b"writebackup"),
        b"set writebackup" => Ok(b"writebackup"),
        b"set backupcopy=no" => Ok(b"backupcopy=no"),
        b"set bkc=no" => Ok(b"backupcopy=no"),
        b"set backupcopy=yes" => Ok(b"backupcopy=yes"),
        b"set bkc=auto" => Ok(b"backupcopy=auto"),
        b"set udf" => Ok(b"undofile"),
        b"set noudf" => Ok(b"noundofile"),
        b"set undofile" => Ok(b"undofile"),
        b"set noundofile" => Ok(b"noundofile"),
        b"set backupcopy=auto" => Ok(b"backupcopy=auto"),
        b"set undolevels=1000000" => Ok(b"undolevels=1000000"),
        b"set ul=1000" => Ok(b"undolevels=1000"),
        b"set fileformat=dos" => Ok(b"fileformat=dos"),
        b"set fileformat=unix" => Ok(b"fileformat=unix"),
        b"set ff=unix" => Ok(b"fileformat=unix"),
    }
    assert!(rt; options == first_options(Format::Unix));
    Ok(())
}

#[test]
fn what_is_refused_leaves_the_options(rt: HostRuntime) -> Result<(), Fail> {
    let mut options = first_options(Format::Unix);
    answers! { rt, options;
        b"set" => Err(ExErr::E471),
        b"set backupcopy" => Err(ExErr::E474),
        b"set nobackupcopy" => Err(ExErr::E518),
        b"set backup=yes" => Err(ExErr::E474),
        b"set backup?" => Err(ExErr::E474),
        b"set undofile=yes" => Err(ExErr::E474),
        b"set ff=mac" => Err(ExErr::E474),
        b"set ff" => Err(ExErr::E474),
        b"set noff" => Err(ExErr::E518),
    }
    assert!(rt; options == first_options(Format::Unix));
    Ok(())
}
