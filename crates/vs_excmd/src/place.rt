// The lines that a command works on.
ghost use Rattle.std.specs.Prelude.{pos, ◌≡◌, ◌≢◌, ◌≤◌, ◌<◌, ◌^◌, IfOk, IfSome, IsTrue, Ok, not};
ghost use Rattle.vs_excmd.specs.Change.{before, size_of};
ghost use Rattle.vs_excmd.specs.Errors.{check, on};
ghost use Rattle.vs_exparse.specs.declared.command.ExErr.TheVariants.{E134};
ghost use Rattle.vs_exparse.specs.Command.{HasCount, command_of};
ghost use Rattle.vs_exparse.specs.Form.{HasForm};
ghost use Rattle.vs_excmd.specs.Place.{BeginsAtLine, IsOutside, IsPlaceIn, IsSpanIn, base_line, counted, destination, first_at, is_into_itself, last_at};
ghost use Rattle.vs_excmd.specs.Place.{line_at, line_in, lines_to, located, located_counted, meant, number_shown, or_last, place_of, shown, span_of};
ghost use Rattle.vs_excmd.specs.Searched.{or_all, searched};

use vs_exparse::{Address, Base, Command, ExErr, Range};

/// What the numbers 0 and 1 stand for in the range of a command.
#[derive(Clone, Copy, Debug, PartialEq, Eq)]
pub enum LineZero {
    /// Line 0 stands for line 1.
    IsFirst,
    /// Line 0 is the place before the first line, and in the empty text so is line 1.
    IsBeforeFirst,
    /// Line 0 stands for line 1 in a text with lines, and line 1 for line 0 in the empty text.
    IsFirstIfAny,
    /// Both stand for themselves.
    IsItself,
}

/// Lines in a row, counted from 1, or the place before the first line as line 0.
#[derive(Clone, Copy, Debug, PartialEq, Eq)]
pub struct Span {
    pub first: u64,
    /// The last line, which is one of them.
    pub last: u64,
}

impl Span {
    /// The number of lines before the first one. None stand before line 0.
    pub fn before(self) -> u64
        ensures { result ≡ before self }
    {
        self.first.saturating_sub(1)
    }

    /// The number of lines. Line 0 is none.
    pub fn size(self) -> u64
        requires { self.first ≤ self.last }
        ensures { result ≡ size_of self }
    {
        self.last - self.before()
    }
}

/// Where a command of the text works.
#[derive(Clone, Copy, Debug, PartialEq, Eq)]
pub struct Place {
    /// The lines that the command works on.
    pub lines: Span,
    /// The line below which `:m`, `:co` and `:t` put the lines. It is 0 for other commands.
    pub to: u64,
}

fn base_line(base: Base, lines: u64, cursor: u64) -> u64
    ensures { result ≡ base_line base lines cursor }
{
    match base {
        Base::Current => cursor,
        Base::Last => lines,
        Base::Number(n) => n as u64,
    }
}

fn line_at(address: Address, lines: u64, cursor: u64) -> i128
    ensures { result ≡ line_at address lines cursor }
{
    base_line(address.base, lines, cursor) as i128 + address.offset as i128
}

fn meant(zero: LineZero, lines: u64, line: i128) -> i128
    ensures value { result ≡ meant zero lines line }
    ensures positive { zero ≡ LineZero.IsFirst → result ≢ pos 0 }
{
    match (zero, lines, line) {
        (LineZero::IsBeforeFirst | LineZero::IsFirstIfAny, 0, 1) => 0,
        (LineZero::IsFirst, _, 0) | (LineZero::IsFirstIfAny, 1.., 0) => 1,
        _ => line,
    }
}

fn first_at(range: Range, lines: u64, cursor: u64) -> i128
    ensures { result ≡ first_at range lines cursor }
{
    match range {
        Range::Absent => cursor as i128,
        Range::All => lines.min(1) as i128,
        Range::One(address) => line_at(address, lines, cursor),
        Range::Two(first, _) => line_at(first, lines, cursor),
    }
}

fn last_at(range: Range, lines: u64, cursor: u64) -> i128
    ensures { result ≡ last_at range lines cursor }
{
    match range {
        Range::Absent => cursor as i128,
        Range::All => lines as i128,
        Range::One(address) => line_at(address, lines, cursor),
        Range::Two(_, last) => line_at(last, lines, cursor),
    }
}

fn line_in(lines: u64, line: i128) -> Option<u64>
    ensures value { result ≡ line_in lines line }
    ensures within { IfSome result (λ line. line ≤ lines) }
{
    if line < 0 || line > lines as i128 {
        return None;
    }
    Some(line as u64)
}

fn span_of(lines: u64, first: i128, last: i128) -> Result<Span, ExErr>
    ensures value { result ≡ span_of lines first last }
    ensures positive { first ≢ pos 0 → IfOk result (λ span. 1 ≤ span.first) }
    ensures lies { IfOk result (λ span. IsSpanIn lines span) }
{
    if first > last {
        return Err(ExErr::E493);
    }
    let Some(first) = line_in(lines, first) else {
        return Err(ExErr::E16);
    };
    let Some(last) = line_in(lines, last) else {
        return Err(ExErr::E16);
    };
    Ok(Span { first, last })
}

fn locate(zero: LineZero, range: Range, lines: u64, cursor: u64) -> Result<Span, ExErr>
    ensures value { result ≡ located zero range lines cursor }
    ensures positive { zero ≡ LineZero.IsFirst → IfOk result (λ span. 1 ≤ span.first) }
    ensures lies { IfOk result (λ span. IsSpanIn lines span) }
{
    let first = meant(zero, lines, first_at(range, lines, cursor));
    let last = meant(zero, lines, last_at(range, lines, cursor));
    span_of(lines, first, last)
}

fn counted(count: Option<u32>, lines: u64, span: Span) -> Span
    requires small { lines < 2 ^ 32 }
    requires form { HasCount count }
    requires lies { IsSpanIn lines span }
    ensures value { result ≡ counted count lines span }
    ensures positive { 1 ≤ span.first → 1 ≤ result.first }
    ensures lies { IsSpanIn lines result }
{
    match count {
        None => span,
        Some(n) => {
            let last = (span.last + n as u64).saturating_sub(1).min(lines);
            Span {
                first: span.last,
                last,
            }
        }
    }
}

fn destination(to: Address, lines: u64, cursor: u64) -> Result<u64, ExErr>
    ensures value { result ≡ destination to lines cursor }
    ensures within { IfOk result (λ line. line ≤ lines) }
{
    match line_in(lines, line_at(to, lines, cursor)) {
        None => Err(ExErr::E16),
        Some(line) => Ok(line),
    }
}

fn lines_alone(lines: Span) -> Place
    ensures { result ≡ record { lines = lines; to = 0 } }
{
    Place { lines, to: 0 }
}

fn lines_to(range: Range, to: Address, lines: u64, cursor: u64) -> Result<Place, ExErr>
    ensures value { result ≡ lines_to range to lines cursor }
    ensures positive { IfOk result (λ place. 1 ≤ place.lines.first) }
    ensures lies { IfOk result (λ place. IsPlaceIn lines place) }
{
    let span = locate(LineZero::IsFirst, range, lines, cursor)?;
    let to = destination(to, lines, cursor)?;
    Ok(Place { lines: span, to })
}

fn is_into_itself(place: Place) -> bool
    ensures { result ≡ is_into_itself place }
{
    place.lines.first <= place.to && place.to < place.lines.last
}

fn place_of_move(range: Range, to: Address, lines: u64, cursor: u64) -> Result<Place, ExErr>
    ensures value { result ≡ on (lines_to range to lines cursor) (λ place. check (not (is_into_itself place)) E134 (Ok place)) }
    ensures positive { IfOk result (λ place. 1 ≤ place.lines.first) }
    ensures lies { IfOk result (λ place. IsPlaceIn lines place) }
{
    let place = lines_to(range, to, lines, cursor)?;
    if is_into_itself(place) {
        return Err(ExErr::E134);
    }
    Ok(place)
}

/// Where a command of the text works (`:a`, `:i`, `:c`, `:d`, `:m`, `:co`, `:t`, `:j` or `:s`), in a text of so many
/// lines with this cursor. Lines are counted from 1; the cursor is 0 in the empty text.
///
/// The errors come in this order: `E493` for a range that is written backwards, `E16` for a range, or a destination,
/// that the text does not have, and `E134` for lines that `:m` is to put below one of themselves (`:help :range`,
/// `:help :move`). Any other command has no place, and answers `E16`.
pub fn place_of(command: &Command, lines: u64, cursor: u64) -> Result<Place, ExErr>
    requires small { lines < 2 ^ 32 }
    requires form { HasForm (command_of command.now) }
    ensures value { result ≡ place_of (command_of command.now) lines cursor }
    ensures lies { IfOk result (λ place. IsPlaceIn lines place) }
    ensures begins { IfOk result (λ place. BeginsAtLine (command_of command.now) place) }
    ensures outside { IfOk result (λ place. IsOutside (command_of command.now) place) }
{
    let span = match *command {
        Command::Move { range, to } => return place_of_move(range, to, lines, cursor),
        Command::CopyTo { range, to } | Command::T { range, to } => {
            return lines_to(range, to, lines, cursor);
        }
        Command::Append { range } | Command::Insert { range } => {
            locate(LineZero::IsBeforeFirst, range, lines, cursor)?
        }
        Command::Change { range } => locate(LineZero::IsFirstIfAny, range, lines, cursor)?,
        Command::Delete { range, count } | Command::Join { range, count, .. } => {
            shown(range, count, lines, cursor)?
        }
        Command::Substitute { range, .. } => locate(LineZero::IsFirst, range, lines, cursor)?,
        Command::Print { .. }
        | Command::Number { .. }
        | Command::Equals { .. }
        | Command::Undo { .. }
        | Command::Redo
        | Command::Earlier { .. }
        | Command::Later { .. }
        | Command::UndoList
        | Command::Write { .. }
        | Command::Preserve
        | Command::Quit { .. }
        | Command::Set { .. }
        | Command::WriteUndo
        | Command::ReadUndo
        | Command::Global { .. } => return Err(ExErr::E16),
    };
    Ok(lines_alone(span))
}

/// The lines that `:p` and `:nu` show, counted from 1, in a text with this number of lines and this cursor.
///
/// The range is the cursor's line where none was written. `E493` is for a range written backwards, else `E16` for one
/// that the text does not have (`:help :range`). A count makes it as many lines from the range's last on, clipped at
/// the end of the text (`:help :print`).
pub fn shown(range: Range, count: Option<u32>, lines: u64, cursor: u64) -> Result<Span, ExErr>
    requires small { lines < 2 ^ 32 }
    requires form { HasCount count }
    ensures value { result ≡ shown range count lines cursor }
    ensures positive { IfOk result (λ span. 1 ≤ span.first) }
    ensures lies { IfOk result (λ span. IsSpanIn lines span) }
{
    let found = locate(LineZero::IsFirst, range, lines, cursor)?;
    Ok(counted(count, lines, found))
}

/// The line number that `:=` shows, in a text with this number of lines and this cursor (`:help :=`).
///
/// It is the range's last line, and the last line of the text where no range was written. Errors are those of [`shown`].
pub fn number_shown(range: Range, lines: u64, cursor: u64) -> Result<u64, ExErr>
    ensures value { result ≡ number_shown range lines cursor }
    ensures within { IfOk result (λ line. line ≤ lines) }
{
    let span = locate(LineZero::IsItself, or_last(range), lines, cursor)?;
    Ok(span.last)
}

fn or_all(range: Range) -> Range
    ensures { result ≡ or_all range }
{
    match range {
        Range::Absent => Range::All,
        Range::All | Range::One(_) | Range::Two(..) => range,
    }
}

/// The lines that a command looks at which looks at all where no range was written, counted from 1, in a text with this number of
/// lines and this cursor (`:help :global`). Errors are those of [`shown`].
pub fn searched(range: Range, lines: u64, cursor: u64) -> Result<Span, ExErr>
    ensures value { result ≡ searched range lines cursor }
    ensures positive { IfOk result (λ span. 1 ≤ span.first) }
    ensures lies { IfOk result (λ span. IsSpanIn lines span) }
{
    locate(LineZero::IsFirst, or_all(range), lines, cursor)
}

fn or_last(range: Range) -> Range
    ensures { result ≡ or_last range }
{
    match range {
        Range::Absent => Range::One(Address {
            base: Base::Last,
            offset: 0,
        }),
        Range::All | Range::One(_) | Range::Two(..) => range,
    }
}
