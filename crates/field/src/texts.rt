// Alphanumeric fields and fillers.
ghost use Rattle.std.specs.Prelude.{◌≡◌, [], take, drop};
ghost use Rattle.format.specs.Fields.{filled, optional, free, filler};
ghost use Rattle.format.specs.Tests.{text_tests};
ghost use Rattle.format.specs.Answers.{number_in};
ghost use Rattle.field.specs.Rows.{field_answer};
ghost use Rattle.field.specs.Leaf.{formed};

use crate::bytes::{is_blank, is_left_justified, is_printable, is_same, part};
use format::Refusal;

// Whether the form of a text is right.
fn formed(right: bool) -> Result<(), Refusal>
    ensures { result ≡ formed right }
{
    if right {
        return Ok(());
    }
    Err(Refusal::WrongForm)
}

pub fn filler_answer(line: &[u8], at: usize, width: usize) -> Result<(), Refusal>
    ensures { number_in result ≡ field_answer (filler width) [] (take width (drop at line.now)) }
{
    formed(is_blank(part(line, at, width)))
}

// A text that has to be there.
pub fn filled_answer(line: &[u8], at: usize, width: usize) -> Result<(), Refusal>
    ensures { number_in result ≡ field_answer (filled width) [] (take width (drop at line.now)) }
{
    let text = part(line, at, width);
    formed(is_printable(text) & is_left_justified(text))
}

// A text that may be blank.
pub fn optional_answer(line: &[u8], at: usize, width: usize) -> Result<(), Refusal>
    ensures { number_in result ≡ field_answer (optional width) [] (take width (drop at line.now)) }
{
    if is_blank(part(line, at, width)) {
        return Ok(());
    }
    filled_answer(line, at, width)
}

// A text that may be anything.
pub fn free_answer(line: &[u8], at: usize, width: usize) -> Result<(), Refusal>
    ensures { number_in result ≡ field_answer (free width) [] (take width (drop at line.now)) }
{
    formed(is_printable(part(line, at, width)))
}

// A text that has to be this one.
pub fn exactly_answer(line: &[u8], at: usize, width: usize, text: &[u8]) -> Result<(), Refusal>
    ensures { number_in result ≡ field_answer (filled width)
        (text_tests text.now (take width (drop at line.now)))
        (take width (drop at line.now)) }
{
    filled_answer(line, at, width)?;
    if is_same(part(line, at, width), text) {
        return Ok(());
    }
    Err(Refusal::WrongValue)
}
