// Writes each file that its arguments name, or standard input, again to standard output: record by record from its
// reading, without city records, its lines ended by 13, 10. A file is checked first and then read again, so that
// nothing of a refused one is written; its answer goes to standard error.
#![tactic(auto)]

use checking::Checked;
use format::Answer;
use page::Page;
use reading::State;
use record::Record;
use std::process::ExitCode;
use std::rt::Env;
use streams::{BUFFER, Input, Lines, NO_MORE, Printed, Program, Source, TakesLines};
use telling::input_name;
use writer::Entry;

// A file so far: the answer to the last line, the reader's state after it and the writer's, the page that it is written
// from, and what became of what was written.
#[derive(Drop)]
struct Copied<'a> {
    answer: Answer,
    reader: State,
    writer: State,
    page: &'a mut Page<BUFFER>,
    printed: Printed,
}

fn entry_without_numbers(read: Record) -> Option<Entry> {
    match read {
        Record::FixedDescription => Some(Entry::FixedDescription),
        Record::NamePayer => Some(Entry::NamePayer),
        Record::PaymentReference => Some(Entry::PaymentReference),
        Record::Description => Some(Entry::Description),
        Record::NameBeneficiary => Some(Entry::NameBeneficiary),
        Record::BatchTrailer {
            total: _,
            accounts: _,
            items: _,
        } => Some(Entry::BatchTrailer),
        Record::FileTrailer => Some(Entry::FileTrailer),
        _ => None,
    }
}

// The record to write of a record that was read: none of a city.
fn entry_of(read: Record) -> Option<Entry> {
    match read {
        Record::FileHeader {
            created,
            identification,
            duplicate,
        } => Some(Entry::FileHeader {
            created,
            identification,
            duplicate,
        }),
        Record::BatchHeader {
            group,
            account,
            sequence,
            identified,
        } => Some(Entry::BatchHeader {
            group,
            account,
            sequence,
            identified,
        }),
        Record::OrderingParty {
            code,
            desired,
            test,
        } => Some(Entry::OrderingParty {
            code,
            desired,
            test,
        }),
        Record::Transaction(x) => Some(Entry::Transaction(x)),
        _ => entry_without_numbers(read),
    }
}

impl Copied<'_> {
    // Before the first line.
    fn start(page: &mut Page<BUFFER>) -> Copied<'_> {
        Copied {
            answer: Answer::accepted(0),
            reader: State::start(),
            writer: State::start(),
            page,
            printed: Printed::Whole,
        }
    }

    // A record onto the page, which has room for it. The writer refuses nothing here (docs/DECISIONS.md, 25).
    fn put(&mut self, entry: Entry, text: [u8; 35]) {
        let page = &mut *self.page;
        if BUFFER < page.at {
            return;
        }
        match writer::write(self.writer, entry, text, &mut page.bytes[page.at..]) {
            Ok(next) => {
                self.writer = next;
                page.at += writer::LINE;
            }
            Err(answer) => self.answer = answer,
        }
    }

    // Writes what is gathered.
    fn print(&mut self, rt: &HostRuntime) {
        self.printed = streams::outcome(rt, rt.write_all(self.page.filled()));
        self.page.clear();
    }
}

impl TakesLines for Copied<'_> {
    fn take(&mut self, rt: &HostRuntime, line: &[u8], _failed: bool) -> bool {
        let r = self.reader.line(line);
        self.answer = r.answer;
        self.reader = r.next;
        if let Some(entry) = entry_of(r.read) {
            self.put(entry, r.text);
        }
        let ended = (self.answer.number != 0) | line.is_empty();
        if ended | !self.page.has_room(writer::LINE) {
            self.print(rt);
        }
        !ended & self.printed.is_whole()
    }
}

// Tells why a file was refused, and whether that could be told.
fn is_told(rt: &HostRuntime, checked: Checked, name: &[u8], several: bool) -> bool {
    let mut page: Page<8192> = Page::blank();
    page.input(name, several);
    page.answer(checked.answer);
    rt.stderr().write_all(page.filled()).is_ok()
}

// A file that was accepted is another one now.
fn tell_changed(rt: &HostRuntime, name: &[u8]) {
    let mut page: Page<8192> = Page::blank();
    page.text(input_name(name));
    page.text(b": it changed while it was read\n");
    let _ = rt.stderr().write_all(page.filled());
}

// Writes files again, on one page after the other.
#[derive(Drop)]
struct Rewriting {
    page: Page<BUFFER>,
    several: bool,
}

impl Rewriting {
    // The second reading of an accepted file. Where output cannot be written, nothing more is: a whole file after half
    // a one would look like one file.
    fn copy_again(&mut self, rt: &HostRuntime, source: &Source) -> u8 {
        let mut buffer = [0u8; BUFFER];
        let mut copied = Copied::start(&mut self.page);
        let start = streams::again(rt, source);
        let lines = start.each(rt, &source.input, &mut buffer, &mut copied);
        if !copied.printed.is_whole() {
            return streams::worse(NO_MORE, streams::status_after(0, true, copied.printed));
        }
        let whole = copied.answer.number == 0;
        if !lines.failed & !whole {
            tell_changed(rt, source.input.name);
        }
        streams::status_of(0, !lines.failed & whole)
    }

    // A file that can be read twice, and what it is read from the first time.
    fn copy(&mut self, rt: &HostRuntime, first: &Input, source: &Source) -> u8 {
        let checked = checking::check(rt, first, &mut self.page.bytes);
        let number = checked.answer.number;
        if checked.lines.failed {
            return streams::status_of(number, false);
        }
        if number != 0 {
            let told = is_told(rt, checked, first.name, self.several);
            return streams::status_of(number, told);
        }
        self.copy_again(rt, source)
    }
}

impl Program for Rewriting {
    fn input(&mut self, rt: &HostRuntime, input: Input) -> u8 {
        if let Some(second) = streams::anew(rt, &input) {
            let source = streams::rereadable(rt, second);
            return self.copy(rt, &input, &source);
        }
        let source = streams::rereadable(rt, input);
        if source.input.is_open() {
            return self.copy(rt, &source.input, &source);
        }
        streams::status_of(0, false)
    }
}

fn main(rt: HostRuntime) -> ExitCode {
    let mut rewriting = Rewriting {
        page: Page::blank(),
        several: streams::is_given(rt.arg(2, &mut [])),
    };
    streams::end(streams::each_input(&rt, 1, &mut rewriting))
}
