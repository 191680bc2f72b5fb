// The line reader.
ghost use Rattle.std.specs.Prelude.{◌≡◌, ◌+◌, ◌≤◌};
ghost use Rattle.reading.specs.State.{max_line};
ghost use Rattle.format.specs.Answers.{number_of};
ghost use Rattle.reading.specs.Step.{refusal_line, refusal_after, nothing_read, ended_at, step_at};

use crate::judge::is_within;
use crate::{LineRead, State};
use field::bytes::{next_line, part};
use format::{Answer, Refusal};
use record::read::{record_in, text_in};
use record::{Fault, Record};

// What is answered to a fault of the line after that one: 24 names no line.
pub(crate) fn refused_after(line: u64, fault: Fault) -> Answer
    requires { refusal_line (number_of fault.refusal) line ≤ max_line + 1 }
    ensures { result ≡ refusal_after line fault }
{
    if fault.refusal == Refusal::BeyondLimits {
        return Answer::refusal(format::BEYOND_LIMITS, 0, fault.column);
    }
    Answer::refusal(fault.refusal.number(), line + 1, fault.column)
}

impl State {
    fn nothing_read(self, answer: Answer) -> LineRead
        ensures { result ≡ nothing_read self answer }
    {
        LineRead {
            answer,
            next: self,
            bytes: 0,
            read: Record::Nothing,
            text: [32u8; 35],
        }
    }

    // No bytes remain.
    pub(crate) fn ended(self) -> Answer
        ensures { result ≡ ended_at self }
    {
        let line = self.line;
        if is_within(self) {
            if self.is_done() {
                return Answer::accepted(line);
            }
            return Answer::refusal(format::ENDS_EARLY, line + 1, 0);
        }
        Answer::refusal(format::BEYOND_LIMITS, 0, 0)
    }

    // The next line of what remains of a file: its answer, the state after it, how many bytes it took, and the record
    // read.
    pub fn line(self, rest: &[u8]) -> LineRead
        ensures { result ≡ step_at self rest.now }
    {
        let line = part(rest, 0, 50);
        let judged = self.lines(next_line(rest, 0));
        let next = judged.next;
        match judged.last {
            Ok(last) => match last {
                Some(taken) => LineRead {
                    answer: Answer::accepted(next.line),
                    next,
                    bytes: taken.bytes,
                    read: record_in(taken.kind, line),
                    text: text_in(taken.kind, line),
                },
                None => next.nothing_read(next.ended()),
            },
            Err(fault) => next.nothing_read(refused_after(next.line, fault)),
        }
    }
}
