// An input of a program: the file that an argument names, or standard input.
ghost use Rattle.std.specs.Prelude.{◌≡◌, ℕ, length, ⊤};
ghost use Rattle.std.specs.Io.{ReadsAtMost};
ghost use Rattle.streams.specs.Counts.{IsPrefixLen, count_of};
ghost use Rattle.streams.specs.Opened.{is_given, is_open};
ghost use Rattle.streams.specs.Status.{EndsAs};

use crate::failures::fail;
use crate::reader::opened;
use crate::{NO_MORE, Reader, status_of, worse};
use std::env::FillError;
use std::io;
use std::io::Error;
use std::rt::Env;

// The system's numbers of 'Bad file descriptor' and 'File name too long'.
const EBADF: i32 = 9;

const ENAMETOOLONG: i32 = 36;

// What it is read from, nothing where it cannot be opened, and its name: standard input has an empty one.
#[derive(Drop)]
pub struct Input<'a> {
    pub reader: Option<Reader>,
    pub name: &'a [u8],
}

impl Input<'_> {
    pub fn is_open(&self) -> bool
        ensures { result ≡ is_open self.now }
    {
        self.reader.is_some()
    }

    fn reader(&self) -> io::Result<&Reader> {
        match &self.reader {
            Some(reader) => Ok(reader),
            None => Err(Error::from_raw_os_error(EBADF)),
        }
    }

    // What failed of it.
    pub(crate) fn tell(&self, rt: &HostRuntime, error: &Error) {
        if self.name.is_empty() {
            fail(rt, b"standard input", error);
        } else {
            fail(rt, self.name, error);
        }
    }

    fn read(&self, buffer: &mut [u8]) -> io::Result<usize>
        ensures { ReadsAtMost result buffer.new }
    {
        self.reader()?.read(buffer)
    }

    pub(crate) fn position(&self) -> io::Result<u64> {
        self.reader()?.position()
    }

    pub(crate) fn go_to(&self, at: u64) -> io::Result<u64> {
        self.reader()?.go_to(at)
    }

    // Reads until the buffer is full, the input ends, or a read fails, which is told: how many bytes were read, as an
    // error where one failed behind them.
    pub(crate) fn fill(&self, rt: &HostRuntime, buffer: &mut [u8]) -> Result<usize, usize>
        ensures { IsPrefixLen (count_of result) buffer.new }
    {
        let mut done: usize = 0;
        while done < buffer.len() {
            match self.read(&mut buffer[done..]) {
                Ok(0) => return Ok(done),
                Ok(count) => done += count,
                Err(e) => {
                    self.tell(rt, &e);
                    return Err(done);
                }
            }
        }
        Ok(done)
    }
}

fn named<'a>(rt: &HostRuntime, name: &'a [u8]) -> Input<'a>
    ensures { result.name.now ≡ name.now }
{
    let reader = opened(rt, name).inspect_err(|e| fail(rt, name, e)).ok();
    Input { reader, name }
}

// Opens the file that argument i names, and puts the name at the start of the buffer. Without argument i it is
// standard input, whose name is empty.
pub fn open<'a>(rt: &HostRuntime, i: usize, name: &'a mut [u8]) -> Input<'a>
    ensures { IsPrefixLen (length result.name.now) name.old }
{
    match rt.arg(i, name) {
        Ok(n) => named(rt, &name[..n]),
        Err(FillError::NotPresent) => Input {
            reader: Some(Reader::StandardInput(rt.stdin())),
            name: b"",
        },
        Err(FillError::TooLong) => {
            fail(rt, b"file name", &Error::from_raw_os_error(ENAMETOOLONG));
            Input {
                reader: None,
                name: b"",
            }
        }
    }
}

// What a program does with its inputs.
pub trait Program {
    // What holds of the status of one.
    ghost ends: { ℕ → Type 0 } = { λ _. ⊤ };

    // Its status; it is open.
    fn input(&mut self, rt: &HostRuntime, input: Input) -> u8
        ensures { ends result };
}

// The status of the input of argument i. One that cannot be opened has failed.
fn status_of_input<P: Program>(rt: &HostRuntime, i: usize, program: &mut P) -> u8
    ensures { EndsAs P.ends result }
{
    let mut name = [0u8; 4096];
    let input = open(rt, i, &mut name);
    if input.is_open() {
        return program.input(rt, input);
    }
    status_of(0, false)
}

// The worst status of the inputs that the arguments from the first on name, or of standard input. After one of
// `NO_MORE` or above no other is opened.
pub fn each_input<P: Program>(rt: &HostRuntime, first: usize, program: &mut P) -> u8
    ensures { EndsAs P.ends result }
{
    let mut status = status_of_input(rt, first, program);
    for i in first..usize::MAX {
        if (NO_MORE <= status) | !is_given(rt.arg(i + 1, &mut [])) {
            break;
        }
        status = worse(status, status_of_input(rt, i + 1, program));
    }
    status
}

// Whether there is an argument, by what an attempt to read it came to.
pub fn is_given(read: Result<usize, FillError>) -> bool
    ensures { result ≡ is_given read }
{
    match read {
        Ok(_) => true,
        Err(e) => match e {
            FillError::NotPresent => false,
            FillError::TooLong => true,
        },
    }
}
