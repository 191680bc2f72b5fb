// Inputs that are read twice. One that cannot go back, such as a pipe, is put into a temporary file first, whose name
// is gone before it is filled.
ghost use Rattle.std.specs.Prelude.{◌≡◌};
ghost use Rattle.machine.specs.Lists.{pick};
ghost use Rattle.streams.specs.Taking.{unread_if, from_start, from_offset};

use crate::failures::{Told, or_told};
use crate::{Input, Lines, Reader};
use field::bytes::part;
use std::fs::{File, OpenOptions};
use std::io::{Error, ErrorKind, Write};
use std::os::unix::fs::OpenOptionsExt;
use std::{fs, io, process};

const TEMPORARY: &[u8] = b"temporary file";

// What it is read from, the offset at which both readings begin, and whether it is a temporary file's.
#[derive(Drop)]
pub struct Source<'a> {
    pub input: Input<'a>,
    pub start: u64,
    pub temporary: bool,
}

// A new file that nobody else may read.
fn created(rt: &HostRuntime, name: &str) -> io::Result<File> {
    OpenOptions::new()
        .read(true)
        .write(true)
        .create_new(true)
        .mode(0o600)
        .open(rt, name)
}

// One without a name, if that name was free: it is gone at once.
fn nameless(rt: &HostRuntime, number: u32) -> io::Result<File> {
    let id = process::id(rt.process());
    let name = format!(in rt.alloc(); "/tmp/clieop-{id}-{number}")?;
    let file = created(rt, name.as_str())?;
    let _ = fs::remove_file(rt, name.as_str());
    Ok(file)
}

// The first of as many names that is free.
fn temporary(rt: &HostRuntime) -> io::Result<File> {
    for number in 0..u32::MAX {
        match nameless(rt, number) {
            Err(e) if e.kind() == ErrorKind::AlreadyExists => {}
            ended => return ended,
        }
    }
    Err(Error::from(ErrorKind::AlreadyExists))
}

// All that an input has left, put into the temporary file.
fn spool(rt: &HostRuntime, input: &Input, to: &File) -> Result<(), Told> {
    let mut buffer = [0u8; crate::BUFFER];
    let mut file = to;
    for _ in 0..u64::MAX {
        let count = input.fill(rt, &mut buffer).map_err(|_| Told)?;
        or_told(rt, TEMPORARY, file.write_all(part(&buffer, 0, count)))?;
        if count < crate::BUFFER {
            return Ok(());
        }
    }
    Err(Told)
}

// A temporary file of all that an input has left, from its start.
fn kept(rt: &HostRuntime, input: &Input) -> Result<Reader, Told> {
    let to = or_told(rt, TEMPORARY, temporary(rt))?;
    spool(rt, input, &to)?;
    let reader = Reader::OpenFile(to);
    or_told(rt, TEMPORARY, reader.go_to(0))?;
    Ok(reader)
}

// An input that cannot go back, in a temporary file; where it is no such input but cannot be read at all, that is told.
fn spooled<'a>(rt: &HostRuntime, input: Input<'a>, error: Error) -> Input<'a>
    ensures { result.name.now ≡ input.entry.name.now }
{
    let reader = if error.kind() == ErrorKind::NotSeekable {
        kept(rt, &input).ok()
    } else {
        input.tell(rt, &error);
        None
    };
    Input {
        reader,
        name: input.name,
    }
}

// An input that can be read twice: itself, or a temporary file of the same bytes.
pub fn rereadable<'a>(rt: &HostRuntime, input: Input<'a>) -> Source<'a>
    ensures from { result ≡ pick result.temporary (from_start result.input) (from_offset input.entry result.start) }
    ensures name { result.input.name.now ≡ input.entry.name.now }
{
    match input.position() {
        Ok(start) => Source {
            input,
            start,
            temporary: false,
        },
        Err(e) => Source {
            input: spooled(rt, input, e),
            start: 0,
            temporary: true,
        },
    }
}

// The lines of it once more. That it cannot go back to where its reading begins is told.
pub fn again(rt: &HostRuntime, source: &Source) -> Lines
    ensures { result ≡ unread_if result.failed }
{
    let failed = source
        .input
        .go_to(source.start)
        .inspect_err(|e| source.input.tell(rt, e))
        .is_err();
    Lines {
        at: 0,
        end: 0,
        over: failed,
        failed,
    }
}
