//! What is said of bad lines: of all that stand among the declarations, or of the query that is one.

use crate::commands::{Command, row_of};
use crate::declaring::Declaring;
use crate::lines::{Lines, declare};
use crate::placing::{BadLine, Place, bytes_before, bytes_before_last, lines_before, place_of};
use crate::saying::add_saying;
use assembly_notation::faults::Fault;
use assembly_notation::words::{Words, first_bad_byte, without_return};
use ir_trees::ir::stop::Stop;
use std::alloc::{AllocError, Global};

/// Of how many bad lines something is said.
const MAX_LINES: u64 = 100;

/// The declarations that were read, and what is said of those that are bad.
#[derive(Drop)]
struct Listing<'a> {
    alloc: Global,
    declaring: Declaring<'a>,
    /// The names that bad lines would have declared.
    missing: Vec<&'a str>,
    /// How many bad lines there are, but for those that name what a bad line would have declared.
    count: u64,
    said: String,
    behind: Behind,
}

/// Lines behind some that aren't in the text.
#[derive(Clone, Copy)]
struct Behind {
    /// The number in the text of the first one.
    first: u64,
    /// How many lines aren't there.
    left_out: u64,
}

impl Behind {
    /// The line's number in the whole, where it has this one in the text.
    fn number(self, number: u64) -> u64 {
        if number < self.first {
            number
        } else {
            number.saturating_add(self.left_out)
        }
    }
}

impl<'a> Listing<'a> {
    /// Nothing that was read, of a text in which lines are left out.
    fn new(alloc: Global, seed: u64, behind: Behind) -> Result<Self, Fault<'a>> {
        Ok(Listing {
            alloc,
            declaring: Declaring::with_seed(alloc, seed)?,
            missing: Vec::new(alloc),
            count: 0,
            said: String::new(alloc),
            behind,
        })
    }

    /// Reads all declarations. A bad one is said and left out.
    fn read(&mut self, text: &'a [u8]) -> Result<(), AllocError> {
        let mut lines = Lines::new(text);
        for _ in 0..u64::MAX {
            match lines.next_command() {
                Ok(None) | Ok(Some((Command::Query(_), _))) => break,
                Ok(Some((command, words))) => self.read_line(command, words, &lines)?,
                Err(fault) => {
                    let line = without_return(lines.line());
                    self.note(fault, lines.number(), line, bytes_before(fault, line))?;
                }
            }
        }
        if self.count > MAX_LINES {
            let more = self.count - MAX_LINES;
            writeln!(self.said, "and {more} more")?;
        }
        Ok(())
    }

    /// Reads the declaration that was read last.
    fn read_line(
        &mut self,
        command: Command,
        mut words: Words<'a>,
        lines: &Lines<'a>,
    ) -> Result<(), AllocError> {
        match declare(&mut self.declaring, command, &mut words, lines) {
            Ok(()) => Ok(()),
            Err(Fault::Stop(Stop::Memory)) => Err(AllocError),
            Err(fault) => {
                let line = without_return(lines.line());
                let before = match bytes_before(fault, line) {
                    Some(before) => Some(before),
                    None => bytes_before_last(line, words),
                };
                self.note(fault, lines.number(), line, before)
            }
        }
    }

    /// Says what is wrong with the line, unless it names what a bad line would have declared.
    fn note(
        &mut self,
        fault: Fault<'a>,
        number: u64,
        line: &'a [u8],
        before: Option<usize>,
    ) -> Result<(), AllocError> {
        if let Some(name) = new_name(line) {
            self.missing.push(name)?;
        }
        if let Fault::UnknownName(word) = fault {
            if self.is_missing(word) {
                return Ok(());
            }
        }
        self.count = self.count.saturating_add(1);
        if self.count > MAX_LINES {
            return Ok(());
        }
        let place = Place {
            number,
            line,
            before,
        };
        self.say(fault, place)
    }

    /// Says what is wrong there.
    fn say(&mut self, fault: Fault<'a>, place: Place<'a>) -> Result<(), AllocError> {
        let number = self.behind.number(place.number);
        add_saying(
            self.alloc,
            fault,
            Place { number, ..place },
            self.declaring.names(),
            &mut self.said,
        )
    }

    fn is_missing(&self, word: &str) -> bool {
        for name in self.missing.as_slice() {
            if *name == word {
                return true;
            }
        }
        false
    }
}

/// The name that a bad line would have declared, if it has one: its third word, where its first one is a command that declares a name, or none
/// that is known.
fn new_name(line: &[u8]) -> Option<&str> {
    let (line, _) = line.split_at_checked(first_bad_byte(line).unwrap_or(line.len()))?;
    let Ok(Some((command, mut words))) = Words::of_line(line) else {
        return None;
    };
    if let Some(row) = row_of(command) {
        if !row.shape.has_new_name() {
            return None;
        }
    }
    words.next_word()?;
    words.next_word()
}

/// What is said of the bad line at which a run over the text ended, and of the other bad lines among the declarations.
///
/// Where that can't be found or made, nothing is said. A bad line behind the declarations has a number that is greater by `further`. A declaration
/// behind a query is bad for where it stands, whatever its words are.
pub fn said_of<'a>(
    alloc: Global,
    seed: u64,
    text: &'a [u8],
    bad: BadLine<'a>,
    further: u64,
) -> Option<String> {
    let behind = Behind {
        first: bad.number,
        left_out: further,
    };
    let mut listing = Listing::new(alloc, seed, behind).ok()?;
    match bad.fault {
        Fault::Stop(Stop::Memory) => (),
        Fault::LateDeclaration if further > 0 => {
            listing.read(lines_before(text, bad.number)).ok()?;
        }
        _ => listing.read(text).ok()?,
    }
    if listing.count == 0 {
        let place = place_of(alloc, seed, text, bad)?;
        listing.say(bad.fault, place).ok()?;
    }
    Some(listing.said)
}
