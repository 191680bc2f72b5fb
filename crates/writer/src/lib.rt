// Writes a file record by record: a record becomes a line, the reader judges it, and a line that it accepts goes to
// the lent room.
#![tactic(auto)]

ghost use Rattle.std.specs.Prelude.{◌≡◌, length};
ghost use Rattle.reading.specs.Step.{step_at};
ghost use Rattle.writer.specs.Promises.{ReadsBack, WritesAgain, RefusesUnfit};
ghost use Rattle.writer.specs.Writing.{written_by, room_by, written_of, room_of};

use field::bytes::put;
use fields::Line;
use format::{Answer, Group};
use reading::State;
use record::Transaction;

mod fields;
mod lines;

// The bytes of a line written.
pub const LINE: usize = 52;

// A record to write: of every kind but city, a trailer without its numbers; its text stands beside it.
#[derive(Clone, Copy)]
pub enum Entry {
    FileHeader {
        created: u64,
        identification: u64,
        duplicate: u64,
    },
    BatchHeader {
        group: Group,
        account: u64,
        sequence: u64,
        identified: bool,
    },
    FixedDescription,
    OrderingParty {
        code: u64,
        desired: u64,
        test: bool,
    },
    Transaction(Transaction),
    NamePayer,
    PaymentReference,
    Description,
    NameBeneficiary,
    BatchTrailer,
    FileTrailer,
}

// A line that the reader accepts is written where there is room.
fn write_line(state: State, line: Line, out: &mut [u8]) -> Result<State, Answer>
    ensures answer { result ≡ written_by (length out.old) (step_at state line.bytes) }
    ensures bytes { out.new ≡ room_by (step_at state line.bytes) line.bytes out.old }
{
    let r = state.line(&line.bytes);
    if r.answer.number != 0 {
        return Err(r.answer);
    }
    if out.len() < LINE {
        return Err(Answer::refusal(format::NO_ROOM, r.answer.line, 0));
    }
    put(&line.bytes, 0, out);
    Ok(r.next)
}

// Writes one record after those so far: the state after it, or the refusal.
pub fn write(state: State, entry: Entry, text: [u8; 35], out: &mut [u8]) -> Result<State, Answer>
    ensures answer { result ≡ written_of state entry text (length out.old) }
    ensures bytes { out.new ≡ room_of state entry text out.old }
    ensures read_back { ReadsBack state entry text result out.new }
    ensures written_again { WritesAgain state entry text (length out.old) result out.new }
    ensures unfit { RefusesUnfit state entry text result }
{
    write_line(state, entry.line(state, text), out)
}
