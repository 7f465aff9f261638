// A stop after each call of a run, and each call failing in turn: what may be left is as the replies tell.
ghost use Rattle.std.specs.Prelude.{◌≡◌, []};
ghost use Rattle.vs_memory.specs.Memory.{folder_of};

use crate::course::{Stage, course_of};
use crate::given::{Given, Plan, Ran, UNHINDERED, run_over, words_of};
use crate::images::{PREFIXES, image_of, run_in};
use crate::promises::Promises;
use std::alloc::{AllocError, Global};
use vs_memory::{Choice, Keep, MemHost};
use vs_scene::PlayErr;

// As many wrong images are told of.
const MOST: usize = 5;

/// What a sweep goes over.
pub struct Sweep<'a> {
    alloc: Global,
    given: &'a Given,
    arguments: &'a [String],
    keeps: &'a [Keep],
    recover: Vec<String>,
    /// What was wrong.
    pub wrong: Vec<String>,
}

// A value with much in it is dropped by a call.
impl<'a> Drop for Sweep<'a> {
    fn drop(self) {
        let Sweep {
            alloc: _,
            given: _,
            arguments: _,
            keeps: _,
            recover: _,
            wrong: _,
        } = self;
    }
}

// A run that is swept.
struct Swept {
    output: Vec<u8>,
    calls: u64,
    stages: Vec<Stage>,
}

// A value with much in it is dropped by a call.
impl Drop for Swept {
    fn drop(self) {
        let Swept {
            output: _,
            calls: _,
            stages: _,
        } = self;
    }
}

// A look at the images of a stop, one after the other.
#[derive(Drop)]
struct Look<'a> {
    promises: &'a mut Promises,
    host: &'a MemHost,
    last: Option<MemHost>,
    // Whether each image so far has the old bytes of a file that is written over, and whether each has the new ones.
    has_old: bool,
    has_new: bool,
}

// A stop of such a run.
#[derive(Clone, Copy, Drop)]
struct Stop {
    failing: u64,
    stop: u64,
    // The number of its stage.
    stage: usize,
    // Whether the stage begins here.
    is_first: bool,
}

// The names under which a run over `f` may have files.
const NAMES: [&str; 11] = [
    "f",
    "f~",
    "z~",
    ".f.swp",
    ".f.swo",
    ".f.un~",
    "f.vsnew",
    "f~.vsnew",
    ".f.swp.vsnew",
    ".f.swo.vsnew",
    ".f.un~.vsnew",
];

// Whether two images have the same files. What is so of the one is so of the other.
fn are_alike(one: &MemHost, other: &MemHost) -> bool {
    NAMES.iter().all(|name| one.file(name) == other.file(name))
}

fn file_in<'a>(given: &'a Given, name: &str) -> &'a [u8] {
    for file in &given.files {
        if file.name.as_str() == name {
            return &file.bytes;
        }
    }
    &[]
}

// Whether an ending with a fault comes with the call that failed.
fn is_last(failing: u64, ran: &Ran) -> bool {
    failing == 0 || !matches!(ran.report.status, 5..=7) || ran.host.calls() == failing
}

impl<'a> Sweep<'a> {
    pub(crate) fn new(
        alloc: Global,
        given: &'a Given,
        arguments: &'a [String],
        keeps: &'a [Keep],
    ) -> Result<Sweep<'a>, AllocError> {
        Ok(Sweep {
            alloc,
            given,
            arguments,
            keeps,
            recover: words_of(alloc, "recover f")?,
            wrong: Vec::new(alloc),
        })
    }

    fn run(&self, failing: u64, stop: u64) -> Result<Ran, PlayErr> {
        run_over(
            self.alloc,
            self.given,
            Plan { failing, stop },
            self.arguments,
        )
    }

    fn tell(&mut self, stop: Stop, what: &str) -> Result<(), AllocError> {
        if self.wrong.len() < MOST {
            let line = format!(in self.alloc; "fail {}, stop {}: {what}", stop.failing, stop.stop)?;
            self.wrong.push(line)?;
        }
        Ok(())
    }

    fn swept(&self, failing: u64) -> Result<Swept, PlayErr> {
        let ran = self.run(failing, UNHINDERED.stop)?;
        if !is_last(failing, &ran) {
            return Err(PlayErr::NoAnswer);
        }
        let file = file_in(self.given, "f");
        let output = ran.host.output();
        let marks = &ran.report.marks;
        Ok(Swept {
            output: Vec::from_slice(self.alloc, output)?,
            calls: ran.host.calls(),
            stages: course_of(self.alloc, file, &self.given.script, output, marks)?,
        })
    }

    // Whether what is recovered of an image is allowed in a stage.
    fn recovers(&self, stage: &Stage, may_be_none: bool, image: &mut MemHost) -> bool
        requires answers { image.old.answers ≡ [] }
        requires settled { (folder_of image.old).pending ≡ [] }
    {
        match run_in(self.alloc, image, &self.recover) {
            0 => stage
                .texts
                .iter()
                .any(|text| text.as_slice() == image.output()),
            4 => may_be_none,
            _ => false,
        }
    }

    // What is wrong with one image of a stop.
    fn wrong_in(
        &self,
        stage: &Stage,
        stop: Stop,
        promises: &mut Promises,
        image: &mut MemHost,
    ) -> Result<Option<&'static str>, PlayErr>
        requires answers { image.old.answers ≡ [] }
        requires settled { (folder_of image.old).pending ≡ [] }
    {
        if let Some(wrong) = promises.wrong_in(image)? {
            return Ok(Some(wrong));
        }
        let may_be_none = stage.may_be_none
            && (stop.stage == 0 || !stop.is_first || stage.texts.is_empty());
        if self.recovers(stage, may_be_none, image) {
            return Ok(None);
        }
        Ok(Some("another text is recovered"))
    }

    // Looks at one image of a stop.
    fn look_in(
        &mut self,
        stage: &Stage,
        stop: Stop,
        look: &mut Look<'_>,
        choice: Choice,
    ) -> Result<bool, PlayErr> {
        let mut image = image_of(self.alloc, look.host, &choice)?;
        if look
            .last
            .as_ref()
            .is_some_and(|last| are_alike(last, &image))
        {
            return Ok(true);
        }
        look.has_old = look.has_old && look.promises.has_old(&image);
        look.has_new = look.has_new && look.promises.has_new(&image);
        if let Some(wrong) = self.wrong_in(stage, stop, look.promises, &mut image)? {
            self.tell(stop, wrong)?;
        }
        look.last = Some(image);
        Ok(false)
    }

    // Looks at the images of a stop with so many changes of names. Where two bytes make no difference, no other does.
    fn look_among(
        &mut self,
        stage: &Stage,
        stop: Stop,
        look: &mut Look<'_>,
        names: u32,
    ) -> Result<(), PlayErr> {
        let mut after_byte = false;
        let keeps = self.keeps;
        for keep in keeps {
            let keep = *keep;
            let is_byte = matches!(keep, Keep::Byte(_));
            let is_alike = self.look_in(stage, stop, look, Choice { names, keep })?;
            if is_alike && is_byte && after_byte {
                return Ok(());
            }
            after_byte = is_byte;
        }
        Ok(())
    }

    // Looks at the images of a stop.
    fn look(
        &mut self,
        stage: &Stage,
        stop: Stop,
        promises: &mut Promises,
        host: &MemHost,
    ) -> Result<(), PlayErr> {
        let mut look = Look {
            promises,
            host,
            last: None,
            has_old: true,
            has_new: true,
        };
        for names in PREFIXES {
            self.look_among(stage, stop, &mut look, names)?;
        }
        if !look.has_old && !look.has_new {
            self.tell(stop, "the old bytes are lost")?;
        }
        Ok(())
    }

    // Looks at each stop of a run from the call that fails on.
    fn sweep_stops(&mut self, failing: u64) -> Result<u64, PlayErr> {
        let mut swept = self.swept(failing)?;
        let start = self.run(failing, 0)?;
        let mut promises = Promises::new(self.alloc, &self.given.files, &start.host)?;
        let mut from = None;
        for stop in 0..=swept.calls {
            let host = self.run(failing, stop)?.host;
            let at = stage_at(&swept.stages, host.output().len());
            let is_first = go_on(&mut promises, &mut swept.stages, from, at, &host)?;
            from = Some(at);
            let stop = Stop {
                failing,
                stop,
                stage: at,
                is_first,
            };
            self.look_at(&swept, stop, &mut promises, &host)?;
        }
        Ok(swept.calls)
    }

    // Looks at a stop, where the call that fails has been made.
    fn look_at(
        &mut self,
        swept: &Swept,
        stop: Stop,
        promises: &mut Promises,
        host: &MemHost,
    ) -> Result<(), PlayErr> {
        if !swept.output.starts_with(host.output()) {
            self.tell(stop, "another output")?;
        }
        if stop.stop < stop.failing {
            return Ok(());
        }
        match swept.stages.get(stop.stage) {
            Some(stage) => self.look(stage, stop, promises, host),
            None => Ok(()),
        }
    }

    /// Looks at each stop of the run. The answer is the number of its calls.
    pub(crate) fn stops(&mut self) -> Result<u64, PlayErr> {
        self.sweep_stops(0)
    }

    /// Looks at each stop from the call on that fails, for each call. The answer is the number of calls.
    pub(crate) fn faults(&mut self) -> Result<u64, PlayErr> {
        let calls = self.run(0, UNHINDERED.stop)?.host.calls();
        for failing in 1..=calls {
            self.sweep_stops(failing)?;
        }
        Ok(calls)
    }
}

// The number of the stage in which the output has this length.
fn stage_at(stages: &[Stage], length: usize) -> usize {
    stages
        .iter()
        .filter(|stage| stage.end <= length)
        .count()
        .saturating_sub(1)
}

// Goes on from a stage to one, and answers whether that begins now.
fn go_on(
    promises: &mut Promises,
    stages: &mut Vec<Stage>,
    from: Option<usize>,
    at: usize,
    host: &MemHost,
) -> Result<bool, PlayErr> {
    if from == Some(at) {
        return Ok(false);
    }
    if let Some(ended) = from.and_then(|from| stages.get(from)) {
        promises.end(ended, host)?;
    }
    if let Some(stage) = stages.get_mut(at) {
        promises.begin(stage, host)?;
    }
    Ok(true)
}
