//! Words of the world text, which are written alone, and numbers at their bounds.

use crate::tests::comparing::{same, shows};
use brc_text::*;
use brc_words::Fault;
use std::io::{self, Write};
use std::test::*;

#[test]
fn numbers(rt: HostRuntime) {
    const CASES: &[(&str, &str, &str)] = &[
        ("zero", "0", "Some(0)"),
        ("ten digits", "4294967295", "Some(4294967295)"),
        (
            "the largest",
            "18446744073709551615",
            "Some(18446744073709551615)",
        ),
        ("one more", "18446744073709551616", "None"),
        ("nothing", "", "None"),
        ("two zeros", "00", "None"),
        ("leading zero", "07", "None"),
        ("a sign", "+7", "None"),
        ("a minus", "-7", "None"),
        ("behind the digits", "1:", "None"),
    ];
    for &(case, text, number) in CASES {
        shows(&rt, case, &number_of(text.as_bytes()), number);
    }
}

#[test]
fn words_of_lines(rt: HostRuntime) {
    const FIRST: &str =
        "[Number(1), Word(Unlock), Word(Take), Number(0), Place(Frame, 12), Place(Popped, 266), Word(InHand), Word(Dash)]";
    let mut words = Words::new();
    let text = b"1 unlock take 0 f12 q266 h -\n2 wake\nno line";
    let behind = b"2 wake\nno line".as_slice();
    same(&rt, "behind the first", words.read(text), Some(behind));
    shows(&rt, "the first", &words.tokens(), FIRST);
    same(
        &rt,
        "behind the second",
        words.read(behind),
        Some(b"no line".as_slice()),
    );
    shows(
        &rt,
        "the second",
        &words.tokens(),
        "[Number(2), Word(Wake)]",
    );
}

#[test]
fn no_lines(rt: HostRuntime) {
    const CASES: &[(&str, &str)] = &[
        ("nothing", ""),
        ("an empty line", "\n"),
        ("no line feed", "1"),
        ("a first letter alone", "f\n"),
        ("a letter of none", "g5\n"),
        ("below 0", "-5\n"),
        ("leading zero", "f07\n"),
        ("a keyword and more", "frames\n"),
        ("a keyword and less", "fram\n"),
        ("a keyword of nine letters", "registers\n"),
        ("a tab", "1\twake\n"),
        ("a carriage return", "1 wake\r\n"),
        ("two spaces", "1  wake\n"),
        ("a space behind", "1 wake \n"),
        ("nine words", "1 1 1 1 1 1 1 1 1\n"),
    ];
    let mut words = Words::new();
    for &(case, text) in CASES {
        same(&rt, case, words.read(text.as_bytes()), None);
    }
}

/// Takes three bytes at a call.
#[derive(Drop)]
struct Slow(Vec<u8>);

impl Write for Slow {
    fn write(&mut self, buf: &[u8]) -> io::Result<usize> {
        let count = buf.len().min(3);
        self.0.extend_from_slice(&buf[..count])?;
        Ok(count)
    }

    fn flush(&mut self) -> io::Result<()> {
        Ok(())
    }
}

#[test]
fn a_line_of_the_world(rt: HostRuntime) -> Result<(), Fail> {
    const WORDS: &[Token] = &[
        Token::Word(Keyword::Object),
        Token::Number(266),
        Token::Word(Keyword::Mailbox),
        Token::Number(1),
        Token::Word(Keyword::Dash),
        Token::Negative(3),
        Token::Word(Keyword::Merged),
        Token::Number(u64::MAX),
    ];
    let mut out = Slow(Vec::new(rt.alloc()));
    let done: Result<(), Fault> = put_line(&mut out, WORDS);
    same(&rt, "written", done, Ok(()));
    let expected = b"object 266 mailbox 1 - -3 merged 18446744073709551615\n";
    same(&rt, "the line", out.0.as_slice(), expected.as_slice());
    Ok(())
}
