// Prints item K of batch B of each file that its other arguments name, or of standard input: its fields and
// descriptions where there is one, and the answer.
#![tactic(auto)]

use field::bytes::{is_digits, part};
use format::Answer;
use items::{ItemFields, ItemRead, Search};
use page::Page;
use reading::State;
use record::types::type_text;
use std::process::ExitCode;
use std::rt::Env;
use streams::{Input, Lines, Printed, Program, TakesLines};

// How many bytes are printed of a file at most.
const PAGE: usize = 8192;

// A search so far: the answer to the last line of the file, the state after it, and what was found.
#[derive(Clone, Copy)]
struct Sought {
    answer: Answer,
    state: State,
    search: Search,
}

// The item, where there is one.
fn put_item(page: &mut Page<PAGE>, fields: ItemFields, texts: &[u8; 128]) {
    if let Some(kind) = fields.kind {
        page.line(b"type=", &type_text(kind));
        page.number(b"amount=", fields.amount, 1);
        page.number(b"payer=", fields.payer, 10);
        page.number(b"beneficiary=", fields.beneficiary, 10);
        page.line(b"reference=", &fields.reference);
        page.line(b"name=", &fields.name);
        page.line(b"description1=", &texts[..32]);
        page.line(b"description2=", &texts[32..64]);
        page.line(b"description3=", &texts[64..96]);
        page.line(b"description4=", &texts[96..]);
    }
}

impl Sought {
    // Before the first line.
    fn start(search: Search) -> Sought {
        Sought {
            answer: Answer::accepted(0),
            state: State::start(),
            search,
        }
    }
}

impl TakesLines for Sought {
    fn take(&mut self, _rt: &HostRuntime, line: &[u8], _failed: bool) -> bool {
        let r = self.state.line(line);
        self.search = self.search.lines(line);
        self.answer = r.answer;
        self.state = r.next;
        (self.answer.number == 0) & !line.is_empty()
    }
}

// What is printed of a file, and what became of that.
fn print(
    rt: &HostRuntime,
    found: ItemRead,
    texts: &[u8; 128],
    name: &[u8],
    several: bool,
) -> Printed {
    let mut page: Page<PAGE> = Page::blank();
    page.input(name, several);
    put_item(&mut page, found.fields, texts);
    page.answer(found.answer);
    streams::outcome(rt, rt.write_all(page.filled()))
}

// Looks for one item in each file.
#[derive(Drop)]
struct Seeking {
    wanted: Search,
    several: bool,
}

impl Program for Seeking {
    fn input(&mut self, rt: &HostRuntime, input: Input) -> u8 {
        let mut buffer = [0u8; streams::BUFFER];
        let mut sought = Sought::start(self.wanted);
        let lines = Lines::start().each(rt, &input, &mut buffer, &mut sought);
        if lines.failed {
            return streams::status_of(sought.answer.number, false);
        }
        let mut texts = [32u8; 128];
        let found = sought.search.answered(sought.answer, &mut texts);
        let printed = print(rt, found, &texts, input.name, self.several);
        streams::status_after(found.answer.number, true, printed)
    }
}

// The number that the digits are, or the largest: no file has so many batches or items.
fn number_of(digits: &[u8]) -> u64 {
    digits.iter().fold(0, |value: u64, digit| {
        value
            .saturating_mul(10)
            .saturating_add(u64::from(digit.saturating_sub(48)))
    })
}

// The number that argument i is. Without that argument, or where it is longer than any number, there is none.
fn number(rt: &HostRuntime, i: usize) -> Option<u64> {
    let mut text = [0u8; 4096];
    let n = rt.arg(i, &mut text).ok()?;
    let digits = part(&text, 0, n);
    (!digits.is_empty() & is_digits(digits)).then(|| number_of(digits))
}

fn seek(rt: &HostRuntime, batch: u64, item: u64) -> u8 {
    let mut seeking = Seeking {
        wanted: Search::start(batch, item),
        several: streams::is_given(rt.arg(4, &mut [])),
    };
    streams::each_input(rt, 3, &mut seeking)
}

fn seek_asked(rt: &HostRuntime) -> u8 {
    if let (Some(batch), Some(item)) = (number(rt, 1), number(rt, 2)) {
        return seek(rt, batch, item);
    }
    let _ = eprintln!(rt; "usage: clieop item B K [FILE..], where B and K are numbers");
    streams::status_of(0, false)
}

fn main(rt: HostRuntime) -> ExitCode {
    streams::end(seek_asked(&rt))
}
