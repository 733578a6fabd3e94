//! Lines and their words.

ghost use Rattle.std.specs.Prelude.{◌≡◌, ◌<◌, ◌+◌, [], ◌∷◌, ◌++◌, Some, None, MatchOption, length};
ghost use Rattle.brc_text.specs.Lines.{first_line};

use crate::token::{Token, token_ahead};
use std::marker::Model;

/// The words of the line that was read last. Its room is used again for the next line.
#[derive(Drop)]
pub struct Words {
    row: [Token; 8],
    count: usize,
}

impl Model for Words {
    ghost use Rattle.std.specs.Prelude.{◌≤◌, List, take};
    ghost use Rattle.brc_text.specs.declared.token.Token.{Token};

    ghost Value = { List Token };

    ghost view = { λ w. take w.count w.row };

    ghost invariant = { λ w. w.count ≤ 8 };
}

impl Words {
    /// No word yet.
    pub fn new() -> Words
        ensures { result ≡ [] }
    {
        Words {
            row: [Token::Number(0); 8],
            count: 0,
        }
    }

    /// The words, in order.
    pub fn tokens(&self) -> &[Token]
        ensures { result.now ≡ self.now }
    {
        &self.row[..self.count]
    }

    fn clear(&mut self)
        ensures { self.new ≡ [] }
    {
        self.count = 0;
    }

    fn push(&mut self, token: Token)
        requires { length self.old < 8 }

        ensures items { self.new ≡ self.old ++ token ∷ [] }
        ensures len { length self.new ≡ length self.old + 1 }
    {
        self.row[self.count] = token;
        self.count += 1;
    }

    /// Reads the first line of the text: 1 to 8 words with one space between them, and a line feed. Answers what
    /// stands behind it; none where the text begins with no such line.
    // Inlined, like its one caller in each loop over lines, since an answer that goes through memory costs more than
    // the reading of a word.
    #[inline(always)]
    pub fn read<'t>(&mut self, text: &'t [u8]) -> Option<&'t [u8]>
        ensures { MatchOption result (first_line 8 text.now ≡ None)
            (λ rest. first_line 8 text.now ≡ Some (self.new, rest.now)) }
    {
        self.clear();
        let mut rest = text;
        for _ in 0..8u32 {
            let Some((token, behind)) = token_ahead(rest) else {
                return None;
            };
            self.push(token);
            if behind.is_empty() {
                return None;
            }
            let below = &behind[1..];
            if behind[0] == b'\n' {
                return Some(below);
            }
            if behind[0] != b' ' {
                return None;
            }
            rest = below;
        }
        None
    }
}
