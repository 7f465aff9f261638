// What all images of a folder show, each thing once.
use crate::given::words_of;
use crate::images::{choices_of, image_of, run_in};
use std::alloc::{AllocError, Global};
use vs_memory::{Choice, Keep, MemHost};
use vs_scene::{PlayErr, show};

// What a run over an image comes to: its output, or its status where that is not 0.
fn run_view(
    alloc: Global,
    host: &MemHost,
    choice: &Choice,
    arguments: &[String],
) -> Result<String, AllocError> {
    let mut image = image_of(alloc, host, choice)?;
    let status = run_in(alloc, &mut image, arguments);
    let mut view = String::new(alloc);
    if status == 0 {
        show(image.output(), &mut view)?;
    } else {
        writeln!(view, "status {status}")?;
    }
    Ok(view)
}

// What an image has under a name.
fn file_view(
    alloc: Global,
    host: &MemHost,
    choice: &Choice,
    name: &str,
) -> Result<String, AllocError> {
    let image = image_of(alloc, host, choice)?;
    let mut view = String::new(alloc);
    match image.file(name) {
        Some(bytes) => show(bytes, &mut view)?,
        None => view.push_str("none\n")?,
    }
    Ok(view)
}

// Adds what is shown where it is new.
fn add_new(views: &mut Vec<String>, view: String) -> Result<(), AllocError> {
    if !views.iter().any(|it| it.as_str() == view.as_str()) {
        views.push(view)?;
    }
    Ok(())
}

/// Adds what the images show: `of NAME` is a file, and other words are the arguments of a run over each.
pub(crate) fn add_views(
    alloc: Global,
    host: &MemHost,
    keeps: &[Keep],
    line: &str,
    views: &mut Vec<String>,
) -> Result<(), PlayErr> {
    let arguments = words_of(alloc, line)?;
    for choice in &choices_of(alloc, keeps)? {
        let view = match line.strip_prefix("of ") {
            Some(name) => file_view(alloc, host, choice, name)?,
            None => run_view(alloc, host, choice, &arguments)?,
        };
        add_new(views, view)?;
    }
    Ok(())
}
