// What the operator tells the sender: the words of an answer, and the name of the field that its column names.
#![tactic(auto)]

ghost use Rattle.std.specs.Prelude.{◌≡◌};
ghost use Rattle.page.specs.Lines.{with_text};
ghost use Rattle.telling.specs.Words.{looked_up, words_of};

use page::put_text;

mod fields;
mod inputs;

pub use fields::{field_name, put_field};
pub use inputs::{input_name, put_name};

const WORDS: [(u8, &str); 16] = [
    (format::BROKEN_LINE, "the line is broken"),
    (format::UNKNOWN_RECORD, "this record does not exist"),
    (
        format::MISPLACED_RECORD,
        "this record may not stand here, or a name record is missing before it",
    ),
    (
        format::WRONG_FORM,
        "the form is wrong: a letter in a number, a strange character, a space first, blank, or not blank",
    ),
    (
        format::WRONG_VALUE,
        "the value is not allowed: no such date or type, zero, or above its maximum",
    ),
    (
        format::WRONG_ACCOUNT,
        "the account is wrong: eight digits, an ordering account of seven or fewer, or the eleven check fails",
    ),
    (
        format::DIFFERS,
        "it differs from what came before: group, sequence, own account, name code or day",
    ),
    (
        format::ABOVE_MAXIMUM,
        "the batch has one item too many, or its total is too large",
    ),
    (format::WRONG_TRAILER, "the trailer's number is wrong"),
    (format::ENDS_EARLY, "the file ends before its file trailer"),
    (
        format::AFTER_TRAILER,
        "there is something after the file trailer",
    ),
    (format::NO_ROOM, "the room lent is too small"),
    (format::NO_SUCH_ITEM, "there is no such batch or item"),
    (
        format::ORDINARY_ACCOUNT,
        "the types 0000, 0003 and 1002 are only for accounts of seven digits or fewer",
    ),
    (
        format::BEYOND_LIMITS,
        "the state handed in is none that a file leads to",
    ),
    (format::ACCEPTED, "accepted"),
];

// What a table has for a number, and nothing where it does not have it.
fn looked_up(table: &'static [(u8, &'static str)], number: u8) -> &'static str
    ensures { result.now ≡ looked_up table.now number }
{
    for row in table {
        if row.0 == number {
            return row.1;
        }
    }
    ""
}

// The words of an answer, and nothing of a number that is no answer's.
pub fn words(number: u8) -> &'static str
    ensures { result.now ≡ words_of number }
{
    looked_up(&WORDS, number)
}

// The same onto a lent page.
pub fn put_words(page: &mut [u8], at: usize, number: u8) -> usize
    ensures { (page.new, result) ≡ with_text (page.old, at) (words_of number) }
{
    put_text(page, at, words(number).as_bytes())
}
