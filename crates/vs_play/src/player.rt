// The steps of a scenario, one after another.
use crate::faults::write_faults;
use crate::given::{File, Given, Plan, Ran, UNHINDERED, are_same, run_over};
use crate::images::{image_of, keeps_of};
use crate::results::{names_of, write_rest, write_result, write_seen};
use crate::sweeps::Sweep;
use crate::views::add_views;
use crate::words::{choice_of, first_word, number_in, swap_name};
use std::alloc::{AllocError, Global};
use vs_memory::{Keep, MemHost};
use vs_scene::{Piece, PlayErr, Step, show, text_of, word_of};

/// Plays steps, and writes each as it came out.
pub struct Player {
    alloc: Global,
    pieces: Vec<Piece>,
    given: Given,
    plan: Plan,
    // One list for each line of arguments.
    arguments: Vec<Vec<String>>,
    keeps: Vec<Keep>,
    ran: Option<Ran>,
    // The folder that is asked about, where it is an image.
    image: Option<MemHost>,
    // The names that were asked about.
    asked: Vec<String>,
    // What the images show, each once.
    views: Vec<String>,
    out: String,
}

// A value with much in it is dropped by a call.
impl Drop for Player {
    fn drop(self) {
        let Player {
            alloc: _,
            pieces: _,
            given: _,
            plan: _,
            arguments: _,
            keeps: _,
            ran: _,
            image: _,
            asked: _,
            views: _,
            out: _,
        } = self;
    }
}

impl Player {
    pub(crate) fn new(alloc: Global) -> Player {
        Player {
            alloc,
            pieces: Vec::new(alloc),
            given: Given::new(alloc),
            plan: UNHINDERED,
            arguments: Vec::new(alloc),
            keeps: Vec::new(alloc),
            ran: None,
            image: None,
            asked: Vec::new(alloc),
            views: Vec::new(alloc),
            out: String::new(alloc),
        }
    }

    /// What was written.
    pub(crate) fn out(&self) -> &str {
        self.out.as_str()
    }

    // Begins another scenario. Texts with a name stay.
    fn begin(&mut self) {
        self.given = Given::new(self.alloc);
        self.plan = UNHINDERED;
        self.arguments.clear();
        self.forget();
    }

    // What is given has changed, so the run is made anew when it is asked about.
    fn forget(&mut self) {
        self.ran = None;
        self.image = None;
        self.asked.clear();
    }

    fn text(&self, step: &Step<'_>) -> Result<Vec<u8>, PlayErr> {
        text_of(self.alloc, &self.pieces, &step.text)
    }

    fn name(&self, step: &Step<'_>) -> Result<String, AllocError> {
        String::from_str(self.alloc, step.rest())
    }

    fn add_piece(&mut self, step: &Step<'_>) -> Result<(), PlayErr> {
        let piece = Piece {
            name: self.name(step)?,
            bytes: self.text(step)?,
        };
        Ok(self.pieces.push(piece)?)
    }

    fn add_file(&mut self, step: &Step<'_>) -> Result<(), PlayErr> {
        let file = File {
            name: self.name(step)?,
            bytes: self.text(step)?,
        };
        Ok(self.given.files.push(file)?)
    }

    fn add_arguments(&mut self, step: &Step<'_>) -> Result<(), PlayErr> {
        let mut list = Vec::new(self.alloc);
        for word in step.rest().split_whitespace() {
            list.push(word_of(self.alloc, word)?)?;
        }
        Ok(self.arguments.push(list)?)
    }

    // A change of what is given. Answers whether the step is one.
    fn give(&mut self, step: &Step<'_>) -> Result<bool, PlayErr> {
        match step.key() {
            "file" => self.add_file(step)?,
            "script" => self.given.script = self.text(step)?,
            "clock" => self.given.clock = number_in(step.rest())?,
            "fail" => self.plan.failing = number_in(step.rest())?,
            "stop" => self.plan.stop = number_in(step.rest())?,
            "arguments" => self.add_arguments(step)?,
            _ => return Ok(false),
        }
        self.forget();
        Ok(true)
    }

    // A change of how later steps are played. Answers whether the step is one.
    fn set(&mut self, step: &Step<'_>) -> Result<bool, PlayErr> {
        match step.key() {
            "#" => self.begin(),
            "text" => self.add_piece(step)?,
            "keep" => self.keeps = keeps_of(self.alloc, step.rest())?,
            _ => return Ok(false),
        }
        Ok(true)
    }

    // Makes the run that is given, once for each list of arguments. All of them come to the same.
    fn run(&mut self) -> Result<(), PlayErr> {
        for arguments in &self.arguments {
            let ran = run_over(self.alloc, &self.given, self.plan, arguments)?;
            match &self.ran {
                Some(first) if are_same(first, &ran) => {}
                Some(_) => return Err(PlayErr::NoAnswer),
                None => self.ran = Some(ran),
            }
        }
        Ok(())
    }

    fn ensure_run(&mut self) -> Result<(), PlayErr> {
        if self.ran.is_none() {
            self.run()?;
        }
        Ok(())
    }

    fn ran(&self) -> Result<&Ran, PlayErr> {
        self.ran.as_ref().ok_or(PlayErr::NoRun)
    }

    // The folder that is asked about.
    fn folder(&self) -> Result<&MemHost, PlayErr> {
        match &self.image {
            Some(image) => Ok(image),
            None => Ok(&self.ran()?.host),
        }
    }

    fn take_image(&mut self, step: &Step<'_>) -> Result<(), PlayErr> {
        let choice = choice_of(step.rest())?;
        self.ensure_run()?;
        let image = image_of(self.alloc, &self.ran()?.host, &choice)?;
        self.image = Some(image);
        Ok(())
    }

    // The next run is over the folder that is asked about, as it is read.
    fn go_on(&mut self, step: &Step<'_>) -> Result<(), PlayErr> {
        let image = self.image.take();
        let ran = self.ran.take().ok_or(PlayErr::NoRun)?;
        self.begin();
        self.given.left = Some(image.unwrap_or(ran.host));
        self.add_arguments(step)
    }

    fn first_arguments(&self) -> Result<&[String], PlayErr> {
        match self.arguments.first() {
            Some(arguments) => Ok(arguments),
            None => Err(PlayErr::NoRun),
        }
    }

    // Sweeps over the run, and writes how many calls it has, and what was wrong.
    fn sweep(&self, fails: bool) -> Result<String, PlayErr> {
        let arguments = self.first_arguments()?;
        let mut sweep = Sweep::new(self.alloc, &self.given, arguments, &self.keeps)?;
        let calls = if fails {
            sweep.faults()?
        } else {
            sweep.stops()?
        };
        let mut said = format!(in self.alloc; "{calls}\n")?;
        for wrong in &sweep.wrong {
            writeln!(said, "wrong: {wrong}")?;
        }
        Ok(said)
    }

    fn write_sweep(&mut self, key: &str, fails: bool) -> Result<(), PlayErr> {
        let said = self.sweep(fails)?;
        write!(self.out, "{key} each {said}")?;
        Ok(())
    }

    fn write_table(&mut self) -> Result<(), PlayErr> {
        let mut table = String::new(self.alloc);
        write_faults(self.alloc, &self.given, self.first_arguments()?, &mut table)?;
        self.out.push_str("fail each\n")?;
        self.out.push_str(table.as_str())?;
        Ok(())
    }

    // A result of many runs. Answers whether the step asks for one.
    fn write_many(&mut self, step: &Step<'_>) -> Result<bool, PlayErr> {
        if step.line == "fail each" {
            self.write_table()?;
        } else if step.line.strip_prefix("stop each ").is_some() {
            self.write_sweep("stop", false)?;
        } else if step.line.strip_prefix("fail and stop each ").is_some() {
            self.write_sweep("fail and stop", true)?;
        } else {
            return Ok(false);
        }
        Ok(true)
    }

    // The names that a step asks about are not looked at again at the scenario's end.
    fn note_name(&mut self, step: &Step<'_>) -> Result<(), PlayErr> {
        let name = first_word(step.rest());
        if matches!(step.key(), "swap" | "no") {
            let names = names_of(self.alloc, swap_name(step)?)?;
            self.asked
                .push(String::from_str(self.alloc, names.swp.as_str())?)?;
            self.asked
                .push(String::from_str(self.alloc, names.swo.as_str())?)?;
            return Ok(());
        }
        Ok(self.asked.push(String::from_str(self.alloc, name)?)?)
    }

    fn write_one(&mut self, step: &Step<'_>) -> Result<bool, PlayErr> {
        let mut line = String::new(self.alloc);
        self.ensure_run()?;
        let is_seen = write_seen(self.alloc, self.folder()?, step, &mut line)?;
        if is_seen {
            self.note_name(step)?;
        }
        if !is_seen && !write_result(self.ran()?, step, &mut line)? {
            return Ok(false);
        }
        self.out.push_str(line.as_str())?;
        Ok(true)
    }

    // Looks at all images, for the steps `one of` that follow.
    fn view_images(&mut self, step: &Step<'_>) -> Result<(), PlayErr> {
        self.ensure_run()?;
        let mut views = Vec::new(self.alloc);
        add_views(
            self.alloc,
            self.folder()?,
            &self.keeps,
            step.rest(),
            &mut views,
        )?;
        self.views = views;
        Ok(())
    }

    // Looks at all images of each stop from a call on, for the steps `one of` that follow.
    fn view_stops(&mut self, step: &Step<'_>) -> Result<(), PlayErr> {
        let (first, line) = step.rest().split_once(' ').ok_or(PlayErr::NoStep)?;
        let first = number_in(first)?;
        self.ensure_run()?;
        let calls = self.ran()?.host.calls();
        let failing = self.plan.failing;
        let mut views = Vec::new(self.alloc);
        for stop in first..=calls {
            let plan = Plan { failing, stop };
            let host = run_over(self.alloc, &self.given, plan, self.first_arguments()?)?.host;
            add_views(self.alloc, &host, &self.keeps, line, &mut views)?;
        }
        self.views = views;
        Ok(())
    }

    // One of the things that the images may show.
    fn allow(&mut self, step: &Step<'_>) -> Result<(), PlayErr> {
        let mut view = String::new(self.alloc);
        match step.line.strip_prefix("one of ") {
            Some(word) => writeln!(view, "{word}")?,
            None => show(&self.text(step)?, &mut view)?,
        }
        self.views.retain(|it| it.as_str() != view.as_str());
        Ok(())
    }

    // Writes what images show that they may not.
    fn write_views(&mut self) -> Result<(), AllocError> {
        for view in &self.views {
            self.out.push_str("but ")?;
            self.out.push_str(view.as_str())?;
        }
        self.views.clear();
        Ok(())
    }

    // A step that looks at images, or goes on from the run. Answers whether it is one.
    fn turn(&mut self, step: &Step<'_>) -> Result<bool, PlayErr> {
        match step.key() {
            "image" => self.take_image(step)?,
            "images" => self.view_images(step)?,
            "stops" => self.view_stops(step)?,
            "one" => self.allow(step)?,
            "then" => self.go_on(step)?,
            _ => return Ok(false),
        }
        Ok(true)
    }

    // Writes a step as it stands.
    fn write_step(&mut self, step: &Step<'_>) -> Result<(), AllocError> {
        writeln!(self.out, "{}", step.line)?;
        for line in &step.text {
            writeln!(self.out, "|{line}")?;
        }
        Ok(())
    }

    // Writes what has changed and was not asked about, at the end of a run over files that were given.
    fn write_rest(&mut self) -> Result<(), PlayErr> {
        if self.given.left.is_some() {
            return Ok(());
        }
        let mut rest = String::new(self.alloc);
        if let Some(ran) = &self.ran {
            write_rest(&self.given.files, &self.asked, &ran.host, &mut rest)?;
        }
        self.out.push_str(rest.as_str())?;
        Ok(())
    }

    // Writes what is left to be said before a step.
    fn write_before(&mut self, step: &Step<'_>) -> Result<(), PlayErr> {
        if step.key() != "one" {
            self.write_views()?;
        }
        if matches!(step.key(), "#" | "then") {
            self.write_rest()?;
        }
        Ok(())
    }

    /// Plays a step, and writes it as it came out.
    pub(crate) fn play(&mut self, step: &Step<'_>) -> Result<(), PlayErr> {
        self.write_before(step)?;
        if step.line.is_empty() {
            return Ok(self.out.push_str("\n")?);
        }
        if self.write_many(step)? {
            return Ok(());
        }
        if self.set(step)? || self.give(step)? || self.turn(step)? {
            return Ok(self.write_step(step)?);
        }
        if self.write_one(step)? {
            return Ok(());
        }
        Err(PlayErr::NoStep)
    }

    /// Writes what is left to be said at the end.
    pub(crate) fn finish(&mut self) -> Result<(), PlayErr> {
        self.write_views()?;
        self.write_rest()
    }
}
