// What the programs print: texts and key=value lines, gathered on a page.
#![tactic(auto)]

ghost use Rattle.std.specs.Prelude.{◌≡◌, ℕ, ◌+◌, List, length, take, replicate, leb};
ghost use Rattle.page.specs.Lines.{line_of, with_text, number_text, with_euros, with_answer, with_input};

use field::bytes::part;
use format::Answer;
use std::marker::Model;

mod lent;

pub use lent::{put_answer, put_digits, put_euros, put_input, put_line, put_number, put_text};

// A page of `N` bytes, filled from the front.
#[derive(Drop)]
pub struct Page<const N: usize> {
    pub bytes: [u8; N],
    pub at: usize,
}

// Clauses see the bytes, and how far they are filled.
impl<const N: usize> Model for Page<N> {
    ghost Value = { List ℕ × ℕ };

    ghost view = { λ p. (p.bytes, p.at) };
}

impl<const N: usize> Page<N> {
    pub fn blank() -> Page<N>
        ensures { result ≡ (replicate N 0, 0) }
    {
        Page {
            bytes: [0; N],
            at: 0,
        }
    }

    pub fn filled(&self) -> &[u8]
        ensures { result.now ≡ take self.now.1 self.now.0 }
    {
        part(&self.bytes, 0, self.at)
    }

    // Fills it from the front again.
    pub fn clear(&mut self)
        ensures { self.new ≡ (self.old.0, 0) }
    {
        self.at = 0;
    }

    // Whether that many bytes more have room.
    pub fn has_room(&self, bytes: usize) -> bool
        ensures { result ≡ leb (self.now.1 + bytes) (length self.now.0) }
    {
        lent::has_room(N, self.at, bytes)
    }

    pub fn text(&mut self, text: &[u8])
        ensures { self.new ≡ with_text self.old text.now }
    {
        self.at = put_text(&mut self.bytes, self.at, text);
    }

    // A key and a text.
    pub fn line(&mut self, key: &[u8], text: &[u8])
        ensures { self.new ≡ with_text self.old (line_of key.now text.now) }
    {
        self.at = put_line(&mut self.bytes, self.at, key, text);
    }

    // A number of at least so many digits.
    pub fn digits(&mut self, n: u64, least: usize)
        ensures { self.new ≡ with_text self.old (number_text least n) }
    {
        self.at = put_digits(&mut self.bytes, self.at, n, least);
    }

    // An amount of cents as euros.
    pub fn euros(&mut self, cents: u64)
        ensures { self.new ≡ with_euros self.old cents }
    {
        self.at = put_euros(&mut self.bytes, self.at, cents);
    }

    // A key and a number of at least so many digits.
    pub fn number(&mut self, key: &[u8], n: u64, least: usize)
        ensures { self.new ≡ with_text self.old (line_of key.now (number_text least n)) }
    {
        self.at = put_number(&mut self.bytes, self.at, key, n, least);
    }

    // The three lines of an answer.
    pub fn answer(&mut self, answer: Answer)
        ensures { self.new ≡ with_answer self.old answer }
    {
        self.at = put_answer(&mut self.bytes, self.at, answer);
    }

    // The name of an input at the start of the page, where there are several.
    pub fn input(&mut self, name: &[u8], several: bool)
        ensures { self.new ≡ with_input self.old.0 name.now several }
    {
        self.at = put_input(&mut self.bytes, name, several);
    }
}
