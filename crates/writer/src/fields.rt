// The line being written, and its fields, each put at its place.
ghost use Rattle.std.specs.Prelude.{◌≡◌, ◌≤◌, ◌++◌, ltb};
ghost use Rattle.machine.specs.Lists.{pick, all, is_space, spaces, put_in};
ghost use Rattle.machine.specs.Digits.{pow10};
ghost use Rattle.format.specs.Records.{code};
ghost use Rattle.record.specs.Read.{text_part};
ghost use Rattle.writer.specs.Encoding.{unfit, line_end, number_in, text_in};

use field::bytes::{is_blank, part, put};
use field::numbers::spelt;
use format::{Kind, codes};
use record::kinds::code_text;
use record::read::text_part;

// A number of at most that many digits.
fn is_within(n: u64, digits: u32) -> bool
    ensures { result ≡ ltb n (pow10 digits) }
{
    match 10u64.checked_pow(digits) {
        Some(limit) => n < limit,
        None => true,
    }
}

// 50 characters and their end.
#[derive(Clone, Copy)]
pub(crate) struct Line {
    pub(crate) bytes: [u8; 52],
}

impl Line {
    // Spaces after the code.
    pub(crate) fn coded(kind: Kind) -> Line
        ensures { result.bytes ≡ code kind ++ (spaces 45 ++ line_end) }
    {
        let mut bytes = [b' '; 52];
        put(&codes::LINE_END, 50, &mut bytes);
        put(&code_text(kind), 0, &mut bytes);
        Line { bytes }
    }

    pub(crate) fn put(mut self, at: usize, text: &[u8]) -> Line
        ensures { result.bytes ≡ put_in self.bytes at text.now }
    {
        put(text, at, &mut self.bytes);
        self
    }

    // What a field cannot carry is written as a byte that no field takes, so that the reader refuses it there.
    fn unfit(self, at: usize, width: usize) -> Line
        ensures { result.bytes ≡ put_in self.bytes at (unfit width) }
    {
        let mut text = [b' '; 45];
        text[0] = 0;
        self.put(at, part(&text, 0, width))
    }

    pub(crate) fn number(self, at: usize, width: usize, n: u64) -> Line
        requires { width ≤ 20 }
        ensures { result.bytes ≡ put_in self.bytes at (number_in width n) }
    {
        if is_within(n, width as u32) {
            let digits = spelt(n);
            self.put(at, part(&digits, 20 - width, width))
        } else {
            self.unfit(at, width)
        }
    }

    // The text of a record, of which only spaces may be beyond the field.
    pub(crate) fn text(self, kind: Kind, text: &[u8]) -> Line
        ensures { result.bytes ≡ put_in self.bytes (text_part kind).at
            (text_in (text_part kind).width text.now) }
    {
        let p = text_part(kind);
        if is_blank(part(text, p.width, text.len())) {
            self.put(p.at, part(text, 0, p.width))
        } else {
            self.unfit(p.at, p.width)
        }
    }

    // A field that is left blank: no text may be given for it.
    pub(crate) fn blank(self, at: usize, width: usize, text: &[u8]) -> Line
        ensures { result.bytes ≡ pick (all is_space text.now) self.bytes
            (put_in self.bytes at (unfit width)) }
    {
        if is_blank(text) {
            self
        } else {
            self.unfit(at, width)
        }
    }
}
