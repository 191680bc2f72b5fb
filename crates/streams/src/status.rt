// How a program ends: `main` returns the status, and `clieop` ends with it.
ghost use Rattle.std.specs.Prelude.{◌≡◌, ◌+◌, max};
ghost use Rattle.std.specs.Process.{exit_status};
ghost use Rattle.streams.specs.Status.{status_of, status_after, status_digit, exit_of};

use crate::Printed;
use std::process::ExitCode;

// Of a file whose output nobody reads any more: what a program ends with that the signal of a closed pipe kills.
pub const UNREAD: u8 = 141;

// Of a file after which no other is begun, as after half a one: it would look like the rest of that.
pub const NO_MORE: u8 = 3;

// Of one file: the number of its answer, and whether all was read and written.
#[tactic(auto, unfolding(crate::specs::Status::status_of, machine::specs::Lists::pick))]
pub fn status_of(number: u8, done: bool) -> u8
    ensures { result ≡ status_of number done }
{
    match (done, number) {
        (true, 0) => 0,
        (true, _) => 1,
        (false, _) => 2,
    }
}

// The same with what became of what was printed of it.
#[tactic(auto, unfolding(crate::specs::Status::status_after))]
pub fn status_after(number: u8, done: bool, printed: Printed) -> u8
    ensures { result ≡ status_after number done printed }
{
    match printed {
        Printed::Whole => status_of(number, done),
        Printed::Failed => status_of(number, false),
        Printed::Unread => UNREAD,
    }
}

// Of two files.
pub fn worse(a: u8, b: u8) -> u8
    ensures { result ≡ max a b }
{
    a.max(b)
}

// What `main` returns: the status, as its digit names it.
#[tactic(auto, unfolding(crate::specs::Status::status_digit))]
pub fn end_with(status: u8) -> ExitCode
    ensures { 48 + exit_status result ≡ status_digit status }
{
    ExitCode::from(status.min(2))
}

// The same, but 141 where nobody reads the output any more.
#[tactic(auto, unfolding(crate::specs::Status::exit_of, crate::specs::Status::status_digit, machine::specs::Lists::pick))]
pub fn end(status: u8) -> ExitCode
    ensures { exit_status result ≡ exit_of status }
{
    if status == UNREAD {
        return ExitCode::from(UNREAD);
    }
    end_with(status)
}
