// The judging of lines. Each function that judges has one caller, so that the compiler puts them all into the loop of
// `run`; whoever judges a line calls `lines`.
ghost use Rattle.std.specs.Prelude.{◌≡◌, false, ◌≤◌};
ghost use Rattle.format.specs.Answers.{number_of, number_in};
ghost use Rattle.format.specs.Cutting.{lines_in};
ghost use Rattle.format.specs.declared.Kind.TheVariants.{Transaction};
ghost use Rattle.record.specs.Kinds.{is_transaction};
ghost use Rattle.reading.specs.State.{Limited, max_line, are_within, is_limited, within};
ghost use Rattle.reading.specs.Bounds.{Going, over_by, halt_at};
ghost use Rattle.reading.specs.Step.{refused, taken, taken_with, judged_read};
ghost use Rattle.reading.specs.Step.{judged_as, judged_kind, judged_line, with_ending, with_cut, judged_first};
ghost use Rattle.reading.specs.Check.{judged_after, judged_lines};

use crate::{Accepted, Judged, OpenItem, Stage, State};
use field::bytes::part;
use format::{Cut, Kind, LineEnd, Refusal, cut_of, is_open};
use record::faults::fault_in;
use record::faults::item::{maxima_fault, transaction_in};
use record::kinds::code_of;
use record::{Batch, Before, Fault, Totals};

impl State {
    // The state as it is, made anew but for its batch and totals. Where a refusal copies it whole, the compiler copies
    // parts of it for every line (DECISIONS, 73).
    fn rebuilt(self) -> State
        ensures { result ≡ self }
    {
        let before = Before {
            sequence: self.before.sequence,
            group: self.before.group,
            known: self.before.known,
            ending: self.before.ending,
        };
        let item = OpenItem {
            name: self.item.name,
            reference: self.item.reference,
            descriptions: self.item.descriptions,
        };
        State {
            line: self.line,
            before,
            batch: self.batch,
            totals: self.totals,
            stage: self.stage,
            item,
        }
    }

    // (A Result of the state or a fault would be plainer. The compiler then passes the state through memory: 253, 306
    // and 426 instructions a line, not 186, 264 and 395; docs/DESIGN-PASS.md.)
    fn refused(self, fault: Fault) -> Judged
        ensures { judged_read result ≡ refused self fault.column (number_of fault.refusal) }
    {
        Judged {
            last: Err(fault),
            next: self.rebuilt(),
        }
    }

    // A line of that kind that is accepted and cut so takes its bytes, and fixes the end.
    fn accepted(self, kind: Kind, cut: Cut) -> Judged
        ensures { judged_read result ≡ taken_with cut (taken kind self) }
    {
        Judged {
            last: Ok(Some(Accepted {
                kind,
                bytes: cut.bytes,
            })),
            next: self.with_ending(cut.ending),
        }
    }

    // A transaction, whose fields are read once.
    fn transaction(self, line: &[u8], cut: Cut) -> Judged
        requires line { self.line ≤ max_line }
        requires limited { Limited self }
        ensures { judged_read result ≡ with_cut cut (judged_as self Transaction line.now) }
    {
        match transaction_in(line, self.before.group, self.batch.account) {
            Ok(fields) => match maxima_fault(self.batch, fields.amount) {
                Ok(()) => self.paid(fields).accepted(Kind::Transaction, cut),
                Err(fault) => self.refused(fault),
            },
            Err(fault) => self.refused(fault),
        }
    }

    // Any other kind.
    fn judge_as(self, kind: Kind, line: &[u8], cut: Cut) -> Judged
        requires line { self.line ≤ max_line }
        requires limited { Limited self }
        requires other { is_transaction kind ≡ false }
        ensures { judged_read result ≡ with_cut cut (judged_as self kind line.now) }
    {
        match fault_in(kind, line, self.before, self.batch) {
            Ok(()) => self.after(kind, line).accepted(kind, cut),
            Err(fault) => self.refused(fault),
        }
    }

    fn judge_kind(self, kind: Kind, line: &[u8], cut: Cut) -> Judged
        requires line { self.line ≤ max_line }
        requires limited { Limited self }
        ensures { judged_read result ≡ with_cut cut (judged_kind self kind line.now) }
    {
        if !self.allows(kind) {
            return self.refused(Fault {
                refusal: Refusal::MisplacedRecord,
                column: 1,
            });
        }
        if kind == Kind::Transaction {
            return self.transaction(line, cut);
        }
        self.judge_as(kind, line, cut)
    }

    // The 50 characters of a line.
    fn judge(self, line: &[u8], cut: Cut) -> Judged
        requires line { self.line ≤ max_line }
        requires limited { Limited self }
        ensures { judged_read result ≡ with_cut cut (judged_line self line.now) }
    {
        match code_of(line) {
            Some(kind) => self.judge_kind(kind, line, cut),
            None => self.refused(Fault {
                refusal: Refusal::UnknownRecord,
                column: 1,
            }),
        }
    }

    // What stops a run before its next line: 24, 11, or nothing. Totals are looked at after a batch alone: nothing else
    // moves them.
    fn halt(self) -> Result<(), Refusal>
        requires { Going self }
        ensures { number_in result ≡ halt_at self }
    {
        if State::MAX_LINE < self.line {
            return Err(Refusal::BeyondLimits);
        }
        match self.stage {
            Stage::Closed => over(self.totals),
            Stage::Done => Err(Refusal::AfterTrailer),
            _ => Ok(()),
        }
    }

    // The first line of what remains, of which there is a byte at least.
    fn judge_first(self, rest: &[u8]) -> Judged
        requires { Going self }
        ensures { judged_read result ≡ judged_first self rest.now }
    {
        if let Err(refusal) = self.halt() {
            return self.refused(Fault { refusal, column: 0 });
        }
        let cut = cut_of(rest);
        if !is_open(self.before.ending, cut.ending) {
            return self.refused(Fault {
                refusal: Refusal::BrokenLine,
                column: 0,
            });
        }
        self.judge(part(rest, 0, 50), cut)
    }
}

impl State {
    // All lines of some bytes, up to the first that is refused.
    pub fn lines(self, bytes: &[u8]) -> Judged
        ensures { judged_read result ≡ judged_lines self bytes.now }
    {
        if is_within(self) {
            run(self, bytes)
        } else {
            self.refused(Fault {
                refusal: Refusal::BeyondLimits,
                column: 0,
            })
        }
    }

    fn with_ending(self, ending: Option<LineEnd>) -> State
        ensures { result ≡ with_ending ending self }
    {
        let before = Before {
            sequence: self.before.sequence,
            group: self.before.group,
            known: self.before.known,
            ending,
        };
        State {
            line: self.line,
            before,
            batch: self.batch,
            totals: self.totals,
            stage: self.stage,
            item: self.item,
        }
    }
}

fn are_within(t: Totals) -> bool
    ensures { result ≡ are_within t }
{
    (t.items <= Totals::MAX_ITEMS) & (t.amount <= Totals::MAX_AMOUNT)
}

// 24 for totals above their limits.
fn over(t: Totals) -> Result<(), Refusal>
    ensures { number_in result ≡ over_by t }
{
    if are_within(t) {
        return Ok(());
    }
    Err(Refusal::BeyondLimits)
}

// The limits of a state but for its line number.
fn is_limited(s: State) -> bool
    ensures { result ≡ is_limited s }
{
    let p = s.before;
    let b = s.batch;
    let i = s.item;
    let t = s.totals;
    (b.items <= Batch::MAX_ITEMS)
        & ((b.total <= Batch::MAX_TOTAL)
            & ((b.accounts <= format::MAX_ACCOUNT)
                & ((p.sequence <= Batch::MAX_SEQUENCE)
                    & ((b.fixed <= Batch::MAX_FIXED)
                        & (((i.descriptions as u64) <= format::MAX_DESCRIPTIONS)
                            & are_within(t))))))
}

fn run(start: State, bytes: &[u8]) -> Judged
    requires { Going start }
    ensures { judged_read result ≡ judged_after (refused start 0 0) (lines_in bytes.now) }
{
    let mut judged = Judged {
        last: Ok(None),
        next: start,
    };
    let mut at = 0;
    while at < bytes.len() {
        judged = judged.next.judge_first(&bytes[at..]);
        match judged.last {
            Ok(last) => match last {
                Some(line) => at += line.bytes,
                None => return judged,
            },
            Err(_) => return judged,
        }
    }
    judged
}

pub(crate) fn is_within(s: State) -> bool
    ensures { result ≡ within s }
{
    (s.line <= State::MAX_LINE) & is_limited(s)
}
