// Texts and key=value lines on a lent page of any length. Each function answers how far it is filled then; what has no
// room is left out whole.
ghost use Rattle.std.specs.Prelude.{◌≡◌, ◌+◌, ◌-◌, ◌≤◌, ◌==◌, length, leb};
ghost use Rattle.std.specs.List.{prefix_len};
ghost use Rattle.page.specs.Lines.{line_of, with_text, without_zeros, number_text, with_euros, with_answer, with_input};

use field::bytes::put;
use field::numbers::spelt;
use format::Answer;

// How many zeros stand in front.
fn zeros(digits: &[u8]) -> usize
    ensures count { result ≡ prefix_len (λ d. d == 48) digits.now }
    ensures within { result ≤ length digits.now }
{
    digits.iter().take_while(|d| **d == b'0').count()
}

// A number's digits without the zeros in front, but so many digits at least.
fn trimmed(digits: &[u8; 20], least: usize) -> &[u8]
    ensures { result.now ≡ without_zeros (19 - (least - 1)) digits.now }
{
    let spare = 19usize.saturating_sub(least.saturating_sub(1));
    let front = zeros(&digits[..spare]);
    &digits[front..]
}

// Whether that many bytes more have room.
pub(crate) fn has_room(size: usize, at: usize, bytes: usize) -> bool
    ensures { result ≡ leb (at + bytes) size }
{
    at <= size && bytes <= size - at
}

pub fn put_text(page: &mut [u8], at: usize, text: &[u8]) -> usize
    ensures { (page.new, result) ≡ with_text (page.old, at) text.now }
{
    if has_room(page.len(), at, text.len()) {
        put(text, at, page);
        return at + text.len();
    }
    at
}

// A key and a text.
pub fn put_line(page: &mut [u8], at: usize, key: &[u8], text: &[u8]) -> usize
    ensures { (page.new, result) ≡ with_text (page.old, at) (line_of key.now text.now) }
{
    if has_room(page.len(), at, key.len() + text.len() + 1) {
        let a = put_text(page, at, key);
        let b = put_text(page, a, text);
        return put_text(page, b, b"\n");
    }
    at
}

// A number of at least so many digits.
pub fn put_digits(page: &mut [u8], at: usize, n: u64, least: usize) -> usize
    ensures { (page.new, result) ≡ with_text (page.old, at) (number_text least n) }
{
    put_text(page, at, trimmed(&spelt(n), least))
}

// An amount of cents as euros.
pub fn put_euros(page: &mut [u8], at: usize, cents: u64) -> usize
    ensures { (page.new, result) ≡ with_euros (page.old, at) cents }
{
    let a = put_digits(page, at, cents / 100, 1);
    let b = put_text(page, a, b".");
    put_digits(page, b, cents % 100, 2)
}

// A key and a number of at least so many digits.
pub fn put_number(page: &mut [u8], at: usize, key: &[u8], n: u64, least: usize) -> usize
    ensures { (page.new, result) ≡ with_text (page.old, at) (line_of key.now (number_text least n)) }
{
    put_line(page, at, key, trimmed(&spelt(n), least))
}

// The three lines of an answer.
pub fn put_answer(page: &mut [u8], at: usize, answer: Answer) -> usize
    ensures { (page.new, result) ≡ with_answer (page.old, at) answer }
{
    let a = put_number(page, at, b"answer=", answer.number as u64, 1);
    let b = put_number(page, a, b"line=", answer.line, 1);
    put_number(page, b, b"column=", answer.column as u64, 1)
}

// The name of an input at the start of a page, where there are several.
pub fn put_input(page: &mut [u8], name: &[u8], several: bool) -> usize
    ensures { (page.new, result) ≡ with_input page.old name.now several }
{
    if several {
        return put_line(page, 0, b"input=", name);
    }
    0
}
