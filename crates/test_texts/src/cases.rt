//! A file of cases, read. A case that could never be run isn't skipped: a file that has one isn't read.

use std::alloc::{AllocError, Global};
use std::io::{self, Error, ErrorKind};

/// A text, and what must come of it by each of these ways, so many times. One of no way is a piece of other texts.
#[derive(Drop)]
pub(crate) struct Case {
    pub(crate) name: String,
    pub(crate) ways: Vec<String>,
    pub(crate) times: u32,
    pub(crate) text: String,
    pub(crate) wanted: String,
}

/// What was read of a file so far: its cases, and the ways of those that follow.
#[derive(Drop)]
struct Reader {
    cases: Vec<Case>,
    ways: Vec<String>,
    times: u32,
    /// A case has these ways already, so another way is the first of other ones.
    is_used: bool,
}

/// Adds a line. In it `\r`, `\t` and `\s` stand for a carriage return, a tab and a space, and a `\` at its end says
/// that no line feed ends it.
fn add_line(text: &mut String, line: &str) -> Result<(), AllocError> {
    let mut is_escaped = false;
    for letter in line.chars() {
        if is_escaped {
            text.push(match letter {
                'r' => '\r',
                't' => '\t',
                's' => ' ',
                other => other,
            })?;
            is_escaped = false;
        } else if letter == '\\' {
            is_escaped = true;
        } else {
            text.push(letter)?;
        }
    }
    if is_escaped {
        return Ok(());
    }
    text.push('\n')
}

/// A copy of each of these.
fn copies(alloc: Global, ways: &[String]) -> Result<Vec<String>, AllocError> {
    let mut all = Vec::new(alloc);
    for way in ways {
        all.push(String::from_str(alloc, way.as_str())?)?;
    }
    Ok(all)
}

/// A file that isn't written as it should be.
pub(crate) fn no_case<T>() -> io::Result<T> {
    Err(Error::from(ErrorKind::InvalidData))
}

/// The text of the first case with this name.
fn text_of(alloc: Global, cases: &[Case], name: &str) -> io::Result<String> {
    for case in cases {
        if case.name.as_str() == name {
            return Ok(String::from_str(alloc, case.text.as_str())?);
        }
    }
    no_case()
}

impl Reader {
    /// Cases that follow have this way, or this one too.
    fn goes_by(&mut self, alloc: Global, way: &str) -> Result<(), AllocError> {
        if self.is_used {
            self.ways.clear();
            self.times = 1;
            self.is_used = false;
        }
        self.ways.push(String::from_str(alloc, way)?)?;
        Ok(())
    }

    /// Cases that follow are run so many times, and not never.
    fn goes_so_often(&mut self, times: &str) -> io::Result<()> {
        match times.parse::<u32>() {
            Ok(0) | Err(_) => no_case(),
            Ok(times) => {
                self.times = times;
                Ok(())
            }
        }
    }

    /// A new case or piece, without a line.
    fn begin(&mut self, alloc: Global, name: &str, ways: Vec<String>) -> Result<(), AllocError> {
        self.cases.push(Case {
            name: String::from_str(alloc, name)?,
            ways,
            times: self.times,
            text: String::new(alloc),
            wanted: String::new(alloc),
        })?;
        Ok(())
    }

    /// A line of the file: its first word, and what follows it.
    fn read(&mut self, alloc: Global, mark: &str, rest: &str) -> io::Result<()> {
        match mark {
            "" | "#" => {}
            "by" => self.goes_by(alloc, rest)?,
            "times" => self.goes_so_often(rest)?,
            "piece" => self.begin(alloc, rest, Vec::new(alloc))?,
            "case" if self.ways.is_empty() => return no_case(),
            "case" => {
                let ways = copies(alloc, self.ways.as_slice())?;
                self.begin(alloc, rest, ways)?;
                self.is_used = true;
            }
            _ => self.add(alloc, mark, rest)?,
        }
        Ok(())
    }

    /// A line of the last case: one of its text, one that must come out, or a piece of its text. Of a piece nothing must
    /// come out, since it isn't run.
    fn add(&mut self, alloc: Global, mark: &str, rest: &str) -> io::Result<()> {
        let piece = if mark == "+" {
            text_of(alloc, self.cases.as_slice(), rest)?
        } else {
            String::new(alloc)
        };
        let Some(last) = self.cases.last_mut() else {
            return no_case();
        };
        match mark {
            "|" => add_line(&mut last.text, rest)?,
            ">" if last.ways.is_empty() => return no_case(),
            ">" => add_line(&mut last.wanted, rest)?,
            "+" => last.text.push_str(piece.as_str())?,
            _ => return no_case(),
        }
        Ok(())
    }
}

/// The cases and the pieces of a file.
pub(crate) fn read_cases(alloc: Global, text: &str) -> io::Result<Vec<Case>> {
    let mut reader = Reader {
        cases: Vec::new(alloc),
        ways: Vec::new(alloc),
        times: 1,
        is_used: false,
    };
    for line in text.lines() {
        let (mark, rest) = line.split_once(' ').unwrap_or((line, ""));
        reader.read(alloc, mark, rest)?;
    }
    Ok(reader.cases)
}
