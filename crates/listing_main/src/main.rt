// Prints the listing of each file that its arguments name, or of standard input: its header, each closed batch, what
// these come to, and the answer.
#![tactic(auto)]

use format::{Answer, codes};
use page::Page;
use reading::State;
use record::types::group_text;
use record::{ClosedBatch, Record};
use std::process::ExitCode;
use std::rt::Env;
use streams::{Input, Lines, Printed, Program, TakesLines};

// How many bytes of a listing are gathered before they are written.
const PAGE: usize = 8192;

// The listing of a file so far: the answer to the last line, the state after it, the page that it is gathered on, and
// what became of what was written.
#[derive(Drop)]
struct Listed<'a> {
    answer: Answer,
    state: State,
    page: &'a mut Page<PAGE>,
    printed: Printed,
}

fn put_header(
    page: &mut Page<PAGE>,
    created: u64,
    identification: u64,
    duplicate: u64,
    text: [u8; 35],
) {
    page.line(b"file=", &codes::FILE_NAME);
    page.number(b"created=", created, 6);
    page.line(b"sender=", &text[..5]);
    page.number(b"identification=", identification, 4);
    page.number(b"duplicate=", duplicate, 1);
}

fn put_batch(page: &mut Page<PAGE>, batch: ClosedBatch) {
    page.number(b"batch=", batch.sequence, 4);
    page.line(b"group=", &group_text(batch.group));
    page.number(b"account=", batch.account, 10);
    page.number(b"items=", batch.items, 1);
    page.number(b"amount=", batch.total, 1);
    page.number(b"accounts=", batch.accounts, 10);
}

// What a record that was read adds; state is the one before it.
fn put_record(page: &mut Page<PAGE>, state: State, read: Record, text: [u8; 35]) {
    match read {
        Record::FileHeader {
            created,
            identification,
            duplicate,
        } => put_header(page, created, identification, duplicate, text),
        Record::BatchTrailer {
            total: _,
            accounts: _,
            items: _,
        } => put_batch(page, state.closing()),
        _ => {}
    }
}

impl Listed<'_> {
    // Before the first line.
    fn start(page: &mut Page<PAGE>) -> Listed<'_> {
        Listed {
            answer: Answer::accepted(0),
            state: State::start(),
            page,
            printed: Printed::Whole,
        }
    }

    // Writes what is gathered where a record's lines might not fit any more.
    fn make_room(&mut self, rt: &HostRuntime) {
        if !self.page.has_room(512) {
            self.printed = streams::outcome(rt, rt.write_all(self.page.filled()));
            self.page.clear();
        }
    }

    // The totals and the answer, after what is gathered; what became of them.
    fn put_rest(&mut self, rt: &HostRuntime) -> Printed {
        let totals = self.state.totals;
        self.page.number(b"file-items=", totals.items, 1);
        self.page.number(b"file-amount=", totals.amount, 1);
        self.page.answer(self.answer);
        streams::outcome(rt, rt.write_all(self.page.filled()))
    }
}

impl TakesLines for Listed<'_> {
    fn take(&mut self, rt: &HostRuntime, line: &[u8], failed: bool) -> bool {
        self.make_room(rt);
        let state = self.state;
        let r = state.line(line);
        put_record(self.page, state, r.read, r.text);
        self.answer = r.answer;
        self.state = r.next;
        (self.answer.number == 0) & !line.is_empty() & !failed & self.printed.is_whole()
    }
}

// Lists files, on one page after the other.
#[derive(Drop)]
struct Listing {
    page: Page<PAGE>,
    several: bool,
}

impl Program for Listing {
    fn input(&mut self, rt: &HostRuntime, input: Input) -> u8 {
        let mut buffer = [0u8; streams::BUFFER];
        self.page.input(input.name, self.several);
        let mut listed = Listed::start(&mut self.page);
        let lines = Lines::start().each(rt, &input, &mut buffer, &mut listed);
        listed.make_room(rt);
        let number = listed.answer.number;
        if !lines.failed & listed.printed.is_whole() {
            return streams::status_after(number, true, listed.put_rest(rt));
        }
        streams::status_after(number, false, listed.printed)
    }
}

fn main(rt: HostRuntime) -> ExitCode {
    let mut listing = Listing {
        page: Page::blank(),
        several: streams::is_given(rt.arg(2, &mut [])),
    };
    streams::end(streams::each_input(&rt, 1, &mut listing))
}
