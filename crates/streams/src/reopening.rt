// Standard input opened once more, as a file of its own that can go back: the descriptor itself only goes on here.
ghost use Rattle.std.specs.Prelude.{◌≡◌, true, IsSome};
ghost use Rattle.streams.specs.Opened.{is_standard, IsOnceMore};

use crate::{Input, Reader};
use std::fs::File;
use std::io::{Error, ErrorKind, Seek, SeekFrom};
use std::{fs, io};

const STANDARD_INPUT: &str = "/proc/self/fd/0";

const ITS_STATE: &str = "/proc/self/fdinfo/0";

// The offset that stands in the first line of a descriptor's state.
fn offset_in(state: &str) -> Option<u64> {
    let line = state.lines().next()?;
    let offset = line.strip_prefix("pos:")?;
    offset.trim().parse::<u64>().ok()
}

fn offset(rt: &HostRuntime) -> io::Result<u64> {
    let state = fs::read_to_string(rt, ITS_STATE)?;
    offset_in(state.as_str()).ok_or_else(|| Error::from(ErrorKind::InvalidData))
}

// A named pipe is no file here: opened anew it would wait for somebody who writes.
fn opened_anew(rt: &HostRuntime) -> io::Result<File> {
    if !fs::metadata(rt, STANDARD_INPUT)?.is_file() {
        return Err(Error::from(ErrorKind::NotSeekable));
    }
    let mut file = fs::open(rt, STANDARD_INPUT)?;
    let at = offset(rt)?;
    file.seek(SeekFrom::Start(at))?;
    Ok(file)
}

// Standard input that is a file once more, at the offset where it stands, for its second reading; nothing of any other
// input. What is read from it does not move the offset that standard input shares with whoever started the program.
pub fn anew<'a>(rt: &HostRuntime, input: &Input<'a>) -> Option<Input<'a>>
    ensures standard { IsSome result → is_standard input.now ≡ true }
    ensures again { IsOnceMore input.now result }
{
    match input.reader {
        Some(Reader::StandardInput(_)) => opened_anew(rt).ok().map(|file| Input {
            reader: Some(Reader::OpenFile(file)),
            name: input.name,
        }),
        Some(Reader::OpenFile(_)) => None,
        None => None,
    }
}
