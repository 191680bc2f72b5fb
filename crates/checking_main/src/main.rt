// Says of each file that its arguments name, or of standard input, whether it is accepted, and if not what to tell the
// sender: the place, the field, what is wrong, and the line as it stands with a mark under the column. For the
// operator on the telephone.
#![tactic(auto)]

use checking::Checked;
use field::bytes::part;
use format::{Answer, Kind};
use page::Page;
use record::Totals;
use record::kinds::code_of;
use std::process::ExitCode;
use std::rt::Env;
use streams::{Input, Printed, Program, TakesLines};
use telling::{field_name, input_name, words};

// How many bytes are printed of a file at most.
const PAGE: usize = 8192;

// A line up to its byte 10, so far: its bytes, the last of them, whether that 10 was met, and whether a read failed.
#[derive(Clone, Copy)]
struct Extent {
    length: u64,
    last: u8,
    ended: bool,
    failed: bool,
}

// A refused line as it is shown: its code, and its first 50 characters, with spaces after the last.
#[derive(Clone, Copy)]
struct LineShown {
    code: Option<Kind>,
    text: [u8; 50],
}

impl LineShown {
    // The text up to its last character that is no space.
    fn shown(&self) -> &[u8] {
        match self.text.iter().rposition(|b| *b != b' ') {
            Some(last) => &self.text[..last + 1],
            None => b"",
        }
    }
}

impl Extent {
    fn start() -> Extent {
        Extent {
            length: 0,
            last: 0,
            ended: false,
            failed: false,
        }
    }

    // As much of the line as stands at the front, up to its byte 10.
    fn after(self, bytes: &[u8]) -> Extent {
        let mut m = self;
        if m.ended {
            return m;
        }
        let end = bytes.iter().position(|b| *b == b'\n');
        let line = part(bytes, 0, end.unwrap_or(bytes.len()));
        m.ended = end.is_some();
        m.length = m.length.saturating_add(line.len() as u64);
        if let Some(last) = line.last() {
            m.last = *last;
        }
        m
    }

    // The bytes before a line's end, which is 13 and 10, or 10 alone.
    fn without_end(self) -> u64 {
        if self.ended & (self.last == 13) {
            return self.length.saturating_sub(1);
        }
        self.length
    }
}

// As much of the line as comes next.
impl TakesLines for Extent {
    fn take(&mut self, _rt: &HostRuntime, line: &[u8], failed: bool) -> bool {
        *self = self.after(line);
        self.failed = failed;
        !self.ended & !line.is_empty()
    }
}

// How many bytes of a refused line are shown: those before its end, where its own length is what is wrong or nobody
// asked for it.
fn shown_length(number: u8, line: &[u8]) -> usize {
    if (number == format::BROKEN_LINE) | (number == format::AFTER_TRAILER) {
        let n = Extent::start().after(line).without_end();
        if n < 50 {
            return n as usize;
        }
    }
    50
}

// A byte as it is shown: a full stop for one outside 32 to 126.
fn visible(b: u8) -> u8 {
    match b {
        32..=126 => b,
        _ => b'.',
    }
}

fn shown(number: u8, line: &[u8]) -> LineShown {
    let mut text = [b' '; 50];
    for (shown, b) in text
        .iter_mut()
        .zip(part(line, 0, shown_length(number, line)))
    {
        *shown = visible(*b);
    }
    LineShown {
        code: code_of(line),
        text,
    }
}

fn put_where(page: &mut Page<PAGE>, answer: Answer, code: Option<Kind>) {
    page.text(b": line ");
    page.digits(answer.line, 1);
    if answer.column != 0 {
        page.text(b", column ");
        page.digits(answer.column as u64, 1);
        page.text(b", ");
        page.text(field_name(code, answer.column).as_bytes());
    }
}

// How a line of 50 characters is broken: its end is not that of the first line.
fn put_other_end(page: &mut Page<PAGE>, last: u8) {
    if last == 13 {
        page.text(b": it ends with 13 and 10, the first line with byte 10 alone");
    } else {
        page.text(b": it ends with byte 10 alone, the first line with 13 and 10");
    }
}

// How a line is broken.
fn put_how(page: &mut Page<PAGE>, m: Extent) {
    let n = m.without_end();
    if !m.ended {
        page.text(b": the file ends after byte ");
        page.digits(n, 1);
        page.text(b" of it");
    } else if n == 50 {
        put_other_end(page, m.last);
    } else {
        page.text(b": its length is ");
        page.digits(n, 1);
        page.text(b", not 50");
    }
}

fn put_what(page: &mut Page<PAGE>, number: u8, m: Extent) {
    page.text(b": ");
    page.text(words(number).as_bytes());
    if number == format::BROKEN_LINE {
        put_how(page, m);
    }
    page.text(b" (answer ");
    page.digits(number as u64, 1);
    page.text(b")\n");
}

// The line as it stands, and the mark under its column.
fn put_line_as_is(page: &mut Page<PAGE>, line: LineShown, column: u8) {
    page.text(b"  ");
    page.text(line.shown());
    page.text(b"\n");
    if column != 0 {
        page.text(&[32; 256][..column as usize + 1]);
        page.text(b"^\n");
    }
}

fn put_refusal(page: &mut Page<PAGE>, answer: Answer, line: LineShown, m: Extent) {
    put_where(page, answer, line.code);
    put_what(page, answer.number, m);
    if answer.number != format::ENDS_EARLY {
        put_line_as_is(page, line, answer.column);
    }
}

fn put_items(page: &mut Page<PAGE>, items: u64) {
    page.digits(items, 1);
    if items == 1 {
        page.text(b" item");
    } else {
        page.text(b" items");
    }
}

fn put_acceptance(page: &mut Page<PAGE>, lines: u64, totals: Totals) {
    page.text(b": accepted, ");
    page.digits(lines, 1);
    page.text(b" lines, ");
    put_items(page, totals.items);
    page.text(b", ");
    page.euros(totals.amount);
    page.text(b"\n");
}

// What is printed of a file, and what became of that.
fn say(rt: &HostRuntime, checked: Checked, line: LineShown, m: Extent, name: &[u8]) -> Printed {
    let mut page: Page<PAGE> = Page::blank();
    page.text(input_name(name));
    if checked.answer.number == format::ACCEPTED {
        put_acceptance(&mut page, checked.answer.line, checked.state.totals);
    } else {
        put_refusal(&mut page, checked.answer, line, m);
    }
    streams::outcome(rt, rt.write_all(page.filled()))
}

// The line that was refused and stands next, measured up to its end, however far that is.
fn measured(rt: &HostRuntime, checked: &Checked, input: &Input, buffer: &mut [u8]) -> Extent {
    let lines = checked.lines;
    let mut m = Extent::start();
    if m.take(rt, lines.line(buffer), lines.failed) {
        lines.each(rt, input, buffer, &mut m);
    }
    m
}

fn check_file(rt: &HostRuntime, input: &Input) -> u8 {
    let mut buffer = [0u8; streams::BUFFER];
    let checked = checking::check(rt, input, &mut buffer);
    let answer = checked.answer;
    let lines = checked.lines;
    let line = shown(answer.number, lines.line(&buffer));
    let mut m = Extent::start();
    if answer.number == format::BROKEN_LINE {
        m = measured(rt, &checked, input, &mut buffer);
    }
    if lines.failed | m.failed {
        return streams::status_of(answer.number, false);
    }
    streams::status_after(answer.number, true, say(rt, checked, line, m, input.name))
}

#[derive(Drop)]
struct Checking;

impl Program for Checking {
    fn input(&mut self, rt: &HostRuntime, input: Input) -> u8 {
        check_file(rt, &input)
    }
}

fn main(rt: HostRuntime) -> ExitCode {
    streams::end(streams::each_input(&rt, 1, &mut Checking))
}
