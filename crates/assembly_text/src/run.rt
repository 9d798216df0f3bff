//! A run over a text.

use crate::asking::{Asking, Query};
use crate::hints::add_hint;
use crate::input::Input;
use crate::lines::{self, Lines, without_mark};
use crate::listing::said_of;
use crate::objects::{self, AskedLine};
use crate::options::Options;
use crate::placing::BadLine;
use crate::stops::{STOPS, words_of_stop};
use assembly_notation::faults::Fault;
use ir_trees::ir::stop::Stop;
use std::alloc::{AllocError, Global};
use std::io;
use std::io::{BufWriter, Read, Write};
use std::random::RandomSource;

/// How a run ended; `status as u8` is the number that a process answers.
#[derive(Clone, Copy, Debug, PartialEq, Eq)]
pub enum Status {
    /// All lines were read.
    Done = 0,
    /// All lines were read, and a check found something, which was to be told.
    Found = 1,
    /// A line is bad.
    BadLine = 2,
    /// The input or the output failed.
    DeviceFailed = 3,
    /// All lines were read, and a query stopped, which was to be told.
    Stopped = 4,
}

/// A seed that nobody knows, for a run, or 0 where the system has none to give.
pub fn random_seed(source: &impl RandomSource) -> u64 {
    let mut bytes = [0u8; 8];
    match source.fill_bytes(&mut bytes) {
        Ok(()) => u64::from_le_bytes(bytes),
        Err(_) => 0,
    }
}

/// Reads the lines of the input, and writes the answer to each query before a further line is read. Answers don't depend on the seed: with
/// one that nobody knows, no text is slow because its types fall together in the table of nodes. Of a bad line it says more to `errors`, which
/// may fail.
pub fn run_text<R: Read + Drop, W: Write + Drop, E: Write + Drop>(
    alloc: Global,
    seed: u64,
    input: R,
    output: W,
    errors: E,
) -> Status {
    run_with(alloc, seed, Options::default(), input, output, errors)
}

/// Reads the lines of the input as `run_text` does, and answers by these options.
pub fn run_with<R: Read + Drop, W: Write + Drop, E: Write + Drop>(
    alloc: Global,
    seed: u64,
    options: Options,
    input: R,
    mut output: W,
    errors: E,
) -> Status {
    let context = Context {
        alloc,
        seed,
        options,
    };
    match run(context, Input::new(input), &mut output, errors) {
        Ok(status) => status,
        Err(_) => Status::DeviceFailed,
    }
}

/// What a run works with.
#[derive(Clone, Copy)]
struct Context {
    alloc: Global,
    seed: u64,
    options: Options,
}

/// A text up to its first query.
#[derive(Drop)]
struct Head {
    /// The lines before that query's.
    declarations: Vec<u8>,
    /// The line of the query; empty where there is none.
    line: Vec<u8>,
}

impl Head {
    /// Reads the input up to the end of the first query's line. The inner error comes where a text can't grow.
    fn read<R: Read + Drop>(
        alloc: Global,
        input: &mut Input<R>,
    ) -> io::Result<Result<Head, AllocError>> {
        let mut declarations = Vec::new(alloc);
        let mut line = Vec::new(alloc);
        for _ in 0..u64::MAX {
            line.clear();
            match input.add_line(&mut line)? {
                Ok(true) => {}
                Ok(false) => break,
                Err(error) => return Ok(Err(error)),
            }
            let is_first = declarations.is_empty();
            let left = if is_first {
                without_mark(line.as_slice())
            } else {
                line.as_slice()
            };
            if lines::is_query(left) {
                break;
            }
            if declarations.extend_from_slice(left).is_err() {
                return Ok(Err(AllocError));
            }
        }
        Ok(Ok(Head { declarations, line }))
    }
}

fn run<R: Read + Drop, W: Write + Drop, E: Write + Drop>(
    context: Context,
    mut input: Input<R>,
    output: &mut W,
    errors: E,
) -> io::Result<Status> {
    let alloc = context.alloc;
    let Ok(head) = Head::read(alloc, &mut input)? else {
        return refuse_memory(context, output);
    };
    // An answer goes by way of a buffer, which is taken before the first line.
    let Some(buffer) = BufWriter::new(alloc, &mut *output).ok() else {
        return refuse_memory(context, output);
    };
    let Head { declarations, line } = head;
    let mut answers = Answers {
        context,
        output: buffer,
        errors,
        has_found: false,
        has_stopped: false,
        asked_outside: None,
    };
    answers.answer_text(declarations.as_slice(), line, &mut input)
}

/// Says that a growth was refused before the first line was read.
fn refuse_memory<W: Write>(context: Context, output: &mut W) -> io::Result<Status> {
    write_fault(context, output, 1, Fault::Stop(Stop::Memory))?;
    Ok(Status::BadLine)
}

/// Writes what is wrong with the line of that number.
fn write_fault<W: Write>(
    context: Context,
    output: &mut W,
    number: u64,
    fault: Fault<'_>,
) -> io::Result<()> {
    if context.options.json {
        match objects::fault_object(context.alloc, number, fault) {
            Ok(object) => output.write_all(object.as_slice())?,
            Err(_) => writeln!(output, "{{\"line\":{number},\"error\":\"stop 1\"}}")?,
        }
    } else {
        writeln!(output, "line {number}: {fault}")?;
    }
    output.flush()
}

/// What is said of a bad line, which is this one or one of the declarations, and of other bad ones among these, if that is found.
fn said_of_line(
    context: Context,
    declarations: &[u8],
    line: &[u8],
    bad: BadLine<'_>,
) -> Option<String> {
    let Context { alloc, seed, .. } = context;
    let BadLine { number, fault } = bad;
    // The queries between have no part in it: the line is put where the first one stands.
    let mut text = Vec::new(alloc);
    text.extend_from_slice(declarations).ok()?;
    text.extend_from_slice(line).ok()?;
    let first = number.min(number_behind(declarations));
    let bad = BadLine {
        number: first,
        fault,
    };
    said_of(alloc, seed, text.as_slice(), bad, number - first)
}

/// How many lines stand up to the end of the first query's, where these are before it.
fn number_behind(declarations: &[u8]) -> u64 {
    let mut number: u64 = 1;
    for byte in declarations {
        if *byte == b'\n' {
            number = number.saturating_add(1);
        }
    }
    number
}

/// The answers of a run, as they are written.
#[derive(Drop)]
struct Answers<W: Write + Drop, E: Write + Drop> {
    context: Context,
    output: W,
    /// Where more is said of a bad line.
    errors: E,
    /// Whether a check found something.
    has_found: bool,
    /// Whether a query stopped, or a part of a check.
    has_stopped: bool,
    /// The number of the first line that asks outside coherence whether impls overlap.
    asked_outside: Option<u64>,
}

impl<W: Write + Drop, E: Write + Drop> Answers<W, E> {
    /// Reads the declarations, and answers the query in the line, which is the first one, and those that are left.
    fn answer_text<R: Read + Drop>(
        &mut self,
        declarations: &[u8],
        line: Vec<u8>,
        input: &mut Input<R>,
    ) -> io::Result<Status> {
        let Context { alloc, seed, .. } = self.context;
        let mut lines = Lines::new(declarations);
        let declaring = match lines::read_declarations(alloc, seed, &mut lines) {
            Ok(declaring) => declaring,
            Err(fault) => {
                let number = lines.number();
                return self.refuse(declarations, &[], BadLine { number, fault });
            }
        };
        if line.is_empty() {
            return Ok(Status::Done);
        }
        match declaring.finish() {
            Ok(asking) => {
                let asking = asking.with_reasons(self.context.options.reasons);
                self.answer_lines(declarations, asking, line, input)
            }
            Err(fault) => {
                let number = number_behind(declarations);
                self.refuse(declarations, line.as_slice(), BadLine { number, fault })
            }
        }
    }

    /// Answers the query in the line, which is the first one, and those that are left.
    fn answer_lines<R: Read + Drop>(
        &mut self,
        declarations: &[u8],
        mut asking: Asking<'_>,
        mut line: Vec<u8>,
        input: &mut Input<R>,
    ) -> io::Result<Status> {
        for number in number_behind(declarations)..u64::MAX {
            let (asked, ended) = self.answer_line(declarations, asking, line.as_slice(), number);
            asking = asked;
            if let Some(status) = ended? {
                return Ok(status);
            }
            line.clear();
            match input.add_line(&mut line)? {
                Ok(true) => {}
                Ok(false) => break,
                Err(_) => {
                    self.write_fault(number.saturating_add(1), Fault::Stop(Stop::Memory))?;
                    return Ok(Status::BadLine);
                }
            }
        }
        self.hint();
        Ok(self.status())
    }

    /// How the run ends where all lines were read.
    fn status(&self) -> Status {
        if !self.context.options.tells_more {
            return Status::Done;
        }
        if self.has_stopped {
            return Status::Stopped;
        }
        if self.has_found {
            return Status::Found;
        }
        Status::Done
    }

    /// Answers the query in the line, unless that is passed over. The status is there where no further line is to be read.
    fn answer_line<'a>(
        &mut self,
        declarations: &[u8],
        asking: Asking<'a>,
        line: &[u8],
        number: u64,
    ) -> (Asking<'a>, io::Result<Option<Status>>) {
        let line = line.strip_suffix(b"\n").unwrap_or(line);
        let (query, words) = match lines::query_of(line) {
            Ok(Some(found)) => found,
            Ok(None) => return (asking, Ok(None)),
            Err(fault) => {
                let ended = self.end(declarations, line, BadLine { number, fault });
                return (asking, ended);
            }
        };
        self.note(&asking, query, number);
        let (asking, made) = asking.ask(query, words);
        let ended = match made {
            Ok(made) => {
                let asked = AskedLine {
                    number,
                    line,
                    query,
                };
                self.write_answer(&asking, asked, made)
            }
            Err(fault) => self.end(declarations, line, BadLine { number, fault }),
        };
        (asking, ended)
    }

    /// Notes that the line of that number asks this, for the hint at the end.
    fn note(&mut self, asking: &Asking<'_>, query: Query, number: u64) {
        let is_of_overlap = matches!(query, Query::Overlap | Query::Check);
        if is_of_overlap && !asking.is_in_coherence() && self.asked_outside.is_none() {
            self.asked_outside = Some(number);
        }
    }

    /// Says which line asks in a way that may not be meant, where no line is bad. It may fail as well.
    fn hint(&mut self) {
        let Some(number) = self.asked_outside else {
            return;
        };
        let mut said = String::new(self.context.alloc);
        if add_hint(number, &mut said).is_ok() {
            let _ = self.errors.write_all(said.as_bytes());
        }
    }

    /// Ends the run at a bad line.
    fn end(
        &mut self,
        declarations: &[u8],
        line: &[u8],
        bad: BadLine<'_>,
    ) -> io::Result<Option<Status>> {
        let status = self.refuse(declarations, line, bad)?;
        Ok(Some(status))
    }

    /// Writes what is wrong with a line, which is this one or one of the declarations, and says more of it.
    fn refuse(&mut self, declarations: &[u8], line: &[u8], bad: BadLine<'_>) -> io::Result<Status> {
        self.write_fault(bad.number, bad.fault)?;
        self.say(declarations, line, bad);
        Ok(Status::BadLine)
    }

    fn write_fault(&mut self, number: u64, fault: Fault<'_>) -> io::Result<()> {
        write_fault(self.context, &mut self.output, number, fault)
    }

    /// Says where the fault comes in, and what is wrong there. Where that can't be found or made, or the device fails, nothing is said.
    fn say(&mut self, declarations: &[u8], line: &[u8], bad: BadLine<'_>) {
        if let Some(said) = said_of_line(self.context, declarations, line, bad) {
            let _ = self.errors.write_all(said.as_bytes());
        }
    }

    /// Writes the answer, or in its place why it wasn't made.
    fn write_answer(
        &mut self,
        asking: &Asking<'_>,
        asked: AskedLine<'_>,
        made: Result<(), Stop>,
    ) -> io::Result<Option<Status>> {
        if self.context.options.json {
            self.write_object(asking, asked, made)?;
        } else {
            self.write_words(asking, made)?;
        }
        self.output.flush()?;
        match made {
            Ok(()) if matches!(asked.query, Query::Check) => {
                self.has_found |= asking.answer() != "ok\n";
                self.tell_stops_of_check(asked.number, asking.answer());
            }
            Ok(()) => {}
            Err(stop) => self.tell_stop(asked.number, stop),
        }
        Ok(None)
    }

    fn write_words(&mut self, asking: &Asking<'_>, made: Result<(), Stop>) -> io::Result<()> {
        match made {
            Ok(()) => self.output.write_all(asking.answer().as_bytes()),
            Err(stop) => {
                let number = stop as u8;
                writeln!(self.output, "stop {number}")
            }
        }
    }

    /// Writes the answer as an object; where that can't be made, it says so.
    fn write_object(
        &mut self,
        asking: &Asking<'_>,
        asked: AskedLine<'_>,
        made: Result<(), Stop>,
    ) -> io::Result<()> {
        let number = asked.number;
        let word = asked.first_word();
        match objects::answer_object(asking, asked, made) {
            Ok(object) => self.output.write_all(object.as_slice()),
            Err(_) => writeln!(
                self.output,
                "{{\"line\":{number},\"query\":\"{word}\",\"answer\":\"stop\",\"stop\":1,\"text\":\"stop 1\"}}"
            ),
        }
    }

    /// Tells why checks of single impls or of two stopped, each stop once, as the answer says it.
    fn tell_stops_of_check(&mut self, line: u64, answer: &str) {
        for (stop, end) in STOPS {
            if answer.lines().any(|found| found.ends_with(end)) {
                self.tell_stop(line, stop);
            }
        }
    }

    /// Tells why a query stopped, where that is asked for. A device that fails then is passed over.
    fn tell_stop(&mut self, line: u64, stop: Stop) {
        self.has_stopped = true;
        if self.context.options.tells_more {
            let number = stop as u8;
            let words = words_of_stop(stop);
            let _ = writeln!(self.errors, "line {line}: stop {number}: {words}");
        }
    }
}
