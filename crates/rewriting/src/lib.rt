// Writes an accepted file again without its city records: 'a file with city records is written again without those
// lines'. The characters of the file's own lines are copied, not built anew, and each line gets the writer's end. That
// they are what `writer::write` writes of the file's records, one after the other from a state of its own, is proved of
// the bytes (`Promised`, by-writer); no call of the writer stands in this code.
#![tactic(auto)]

ghost use Rattle.std.specs.Prelude.{◌≡◌, ◌+◌, ◌≤◌, length};
ghost use Rattle.machine.specs.Lists.{pasted};
ghost use Rattle.format.specs.Cutting.{lines_in};
ghost use Rattle.rewriting.specs.Cities.{kept_line, kept_count, without_cities};
ghost use Rattle.rewriting.specs.Promises.{Promised};
ghost use Rattle.rewriting.specs.Rewriting.{rewritten_of, room_after};

use field::bytes::{part, put};
use field::lines::lines_in;
use format::{Answer, codes};
use record::kinds::is_city;

// What a file to write again is answered, and how many bytes were written.
#[derive(Clone, Copy)]
pub struct Rewritten {
    pub answer: Answer,
    pub written: usize,
}

// How many lines of a file are no city's.
fn count(file: &[u8]) -> usize
    ensures { result ≡ kept_count (lines_in file.now) }
{
    lines_in(file).filter(|line| !is_city(line)).count()
}

// A line from an offset on with the writer's end, or nothing of a city's: where the next one goes.
fn put_line(line: &[u8], at: usize, out: &mut [u8]) -> usize
    requires { at + length (kept_line line.now) ≤ length out.old }
    ensures next { result ≡ at + length (kept_line line.now) }
    ensures bytes { out.new ≡ pasted out.old at (kept_line line.now) }
{
    if is_city(line) {
        return at;
    }
    let text = part(line, 0, 50);
    let end = at + text.len();
    put(text, at, out);
    put(&codes::LINE_END, end, out);
    end + 2
}

// The lines that are no city's, one after the other.
fn copy(file: &[u8], out: &mut [u8])
    requires { length (without_cities file.now) ≤ length out.old }
    ensures { out.new ≡ pasted out.old 0 (without_cities file.now) }
{
    let mut at: usize = 0;
    for line in lines_in(file) {
        at = put_line(line, at, out);
    }
}

// Writes a file again: its own answer; 12 where only the room is too small. A refusal leaves the room as it was.
pub fn rewrite(file: &[u8], out: &mut [u8]) -> Rewritten
    ensures answer { result ≡ rewritten_of file.now (length out.old) }
    ensures bytes { out.new ≡ room_after file.now out.old }
    ensures again { Promised file.now result out.new }
{
    let answer = file::check(file).answer;
    if answer.number != 0 {
        return Rewritten { answer, written: 0 };
    }
    let n = count(file);
    if out.len() / writer::LINE < n {
        return Rewritten {
            answer: Answer::refusal(format::NO_ROOM, answer.line, 0),
            written: 0,
        };
    }
    copy(file, out);
    Rewritten {
        answer,
        written: n * writer::LINE,
    }
}
