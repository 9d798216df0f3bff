//! Files of texts: sections, and texts with what they have to print.

use assembly_text::options::Options;
use assembly_text::run::Status;
use std::alloc::{AllocError, Global};

/// A text, how it is run, and what that has to print and to say on the standard error.
#[derive(Drop)]
pub struct Text {
    pub title: String,
    pub options: Options,
    pub text: String,
    pub answers: String,
    pub said: String,
    /// How the run has to end, if that is said.
    status: Option<Status>,
    /// Whether the answers are the first words alone.
    pub by_first_words: bool,
    /// From where on the text is cut, which leaves out what its section begins with where another text has it, too; and whether it is.
    pub first_cut: usize,
    pub is_cut: bool,
}

impl Text {
    /// How the run has to end.
    pub fn status(&self) -> Status {
        match self.status {
            Some(status) => status,
            None if self.said.is_empty() => Status::Done,
            None => Status::BadLine,
        }
    }
}

/// Reads a file, a line at a time.
#[derive(Drop)]
pub struct Sections {
    alloc: Global,
    options: Options,
    before: String,
    chain: usize,
    is_cut: bool,
    /// Whether no text of the section was read: the first one is cut from its beginning on.
    is_first: bool,
    /// The text that is being read, and how many blank lines stand behind it.
    at_hand: Option<Text>,
    is_begun: bool,
    blanks: usize,
}

impl Sections {
    pub fn new(alloc: Global) -> Self {
        Sections {
            alloc,
            options: Options::default(),
            before: String::new(alloc),
            chain: 0,
            is_cut: true,
            is_first: true,
            at_hand: None,
            is_begun: false,
            blanks: 0,
        }
    }

    /// What the section's texts begin with, if the line says it.
    pub fn begins_behind<'a>(&self, line: &'a str) -> Option<&'a str> {
        match self.at_hand {
            None => line.strip_prefix("after "),
            Some(_) => None,
        }
    }

    pub fn set_before(&mut self, before: String) {
        self.before = before;
    }

    /// Takes the next line in, and gives the text that ends before it.
    pub fn read(&mut self, line: &str) -> Result<Option<Text>, AllocError> {
        if line.starts_with("#### ") {
            let ended = self.at_hand.take();
            self.options = Options::default();
            self.before = String::new(self.alloc);
            self.chain = 0;
            self.is_cut = true;
            self.is_first = true;
            return Ok(ended);
        }
        if let Some(title) = line.strip_prefix("==== ") {
            let begun = self.begin(title)?;
            return Ok(self.at_hand.replace(begun));
        }
        if self.at_hand.is_some() {
            self.add(line)?;
        } else {
            self.set(line);
        }
        Ok(None)
    }

    /// Gives the last text.
    pub fn finish(self) -> Result<Option<Text>, AllocError> {
        Ok(self.at_hand)
    }

    fn begin(&mut self, title: &str) -> Result<Text, AllocError> {
        self.is_begun = false;
        self.blanks = 0;
        let text = self.before.clone()?;
        let first_cut = if self.is_first { 0 } else { text.len() };
        self.is_first = false;
        Ok(Text {
            title: String::from_str(self.alloc, title)?,
            options: self.options,
            status: None,
            first_cut,
            text,
            answers: String::new(self.alloc),
            said: String::new(self.alloc),
            by_first_words: false,
            is_cut: self.is_cut,
        })
    }

    /// What a line at the head of a section says.
    fn set(&mut self, line: &str) {
        if let Some(count) = line.strip_prefix("chain ") {
            self.chain = count.parse().unwrap_or(0);
        }
        if let Some(argument) = line.strip_prefix("with ") {
            self.options = options_with(argument);
        }
        if line == "never cut" {
            self.is_cut = false;
        }
    }

    /// Adds a line of a text.
    fn add(&mut self, line: &str) -> Result<(), AllocError> {
        let Some(text) = &mut self.at_hand else {
            return Ok(());
        };
        if let Some(answer) = line.strip_prefix("> ") {
            return add_line(&mut text.answers, answer);
        }
        if let Some(said) = line.strip_prefix("! ") {
            return add_line(&mut text.said, said);
        }
        if let Some(number) = line.strip_prefix("= ") {
            text.status = status_of(number);
            return Ok(());
        }
        if line.is_empty() {
            self.blanks = self.blanks.saturating_add(1);
            return Ok(());
        }
        if self.is_begun {
            text.text.push('\n')?;
        }
        for _ in 0..self.blanks {
            text.text.push('\n')?;
        }
        self.is_begun = true;
        self.blanks = 0;
        let (asked, answered) = line.split_once(" => ").unwrap_or((line, ""));
        if !answered.is_empty() {
            text.by_first_words = true;
            add_line(&mut text.answers, first_word(answered))?;
        }
        let chain = " &".repeat(self.alloc, self.chain)?;
        let asked = asked.replace(self.alloc, " &..", chain.as_str())?;
        text.text.push_str(asked.as_str())
    }
}

/// How the program answers where it is given that argument.
fn options_with(argument: &str) -> Options {
    Options {
        json: argument == "--json",
        reasons: argument == "--reasons",
        tells_more: true,
    }
}

/// The status of that number.
fn status_of(number: &str) -> Option<Status> {
    match number {
        "0" => Some(Status::Done),
        "1" => Some(Status::Found),
        "2" => Some(Status::BadLine),
        "4" => Some(Status::Stopped),
        _ => None,
    }
}

fn add_line(to: &mut String, line: &str) -> Result<(), AllocError> {
    to.push_str(line)?;
    to.push('\n')
}

/// The first word of a line.
pub fn first_word(line: &str) -> &str {
    let (word, _) = line.split_once(' ').unwrap_or((line, ""));
    word
}

/// The first words of the lines.
pub fn first_words(alloc: Global, lines: &str) -> Result<String, AllocError> {
    let mut words = String::new(alloc);
    for line in lines.lines() {
        add_line(&mut words, first_word(line))?;
    }
    Ok(words)
}
