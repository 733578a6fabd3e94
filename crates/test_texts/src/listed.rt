//! The list of the examples, `data/examples/LIST`, read.

use crate::cases::no_case;
use std::io;

/// What is done with an example.
#[derive(Clone, Copy, Debug, PartialEq, Eq)]
pub(crate) enum Kind {
    /// `NAME.trace` is replayed to `NAME.world`.
    Trace,
    /// `NAME.script` is run by the words of its first line, and prints `NAME.out`.
    Script,
    /// `NAME.world` is drawn as `NAME.dot`.
    WorldPicture,
    /// `NAME.out` is drawn as `NAME.dot`.
    OutputPicture,
}

/// A line of the list.
#[derive(Clone, Copy)]
pub(crate) struct Listed<'t> {
    pub(crate) name: &'t str,
    pub(crate) kind: Kind,
    /// The status with which the program ends on it.
    pub(crate) status: u8,
}

impl Kind {
    /// The kind that this word of the list stands for.
    fn of_word(word: &str) -> Option<Kind> {
        match word {
            "trace" => Some(Kind::Trace),
            "script" => Some(Kind::Script),
            "picture_of_world" => Some(Kind::WorldPicture),
            "picture_of_out" => Some(Kind::OutputPicture),
            _ => None,
        }
    }

    /// What the file ends with that the program is given.
    pub(crate) fn input(self) -> &'static str {
        match self {
            Kind::Trace => "trace",
            Kind::Script => "script",
            Kind::WorldPicture => "world",
            Kind::OutputPicture => "out",
        }
    }

    /// What the file ends with that the program must write.
    pub(crate) fn output(self) -> &'static str {
        match self {
            Kind::Trace => "world",
            Kind::Script => "out",
            Kind::WorldPicture | Kind::OutputPicture => "dot",
        }
    }
}

/// A line of the list: NAME KIND STATUS. None if it is empty or a comment; another line isn't skipped.
pub(crate) fn read_listed(line: &str) -> io::Result<Option<Listed<'_>>> {
    if line.is_empty() || line.starts_with('#') {
        return Ok(None);
    }
    let mut words = line.split_whitespace();
    let Some(name) = words.next() else {
        return no_case();
    };
    let Some(kind) = words.next() else {
        return no_case();
    };
    let Some(status) = words.next() else {
        return no_case();
    };
    match (Kind::of_word(kind), status.parse::<u8>(), words.next()) {
        (Some(kind), Ok(status), None) => Ok(Some(Listed { name, kind, status })),
        _ => no_case(),
    }
}
