// What an input is read from.
ghost use Rattle.std.specs.Io.{ReadsAtMost};

use std::fs::File;
use std::io::{Error, Read, Seek, SeekFrom, Stdin};
use std::os::fd::AsFd;
use std::{fs, io, str};

// The system's numbers of 'Illegal seek' and 'Invalid or incomplete multibyte or wide character'.
const ESPIPE: i32 = 29;

const EILSEQ: i32 = 84;

#[derive(Drop)]
pub enum Reader {
    StandardInput(Stdin),
    OpenFile(File),
}

impl Reader {
    pub(crate) fn read(&self, buffer: &mut [u8]) -> io::Result<usize>
        ensures { ReadsAtMost result buffer.new }
    {
        match self {
            Reader::StandardInput(stdin) => {
                let mut from = *stdin;
                from.read(buffer)
            }
            Reader::OpenFile(file) => {
                let mut from = file;
                from.read(buffer)
            }
        }
    }

    // Where it stands. Standard input only goes on; a copy of its descriptor is made to see whether it has one.
    pub(crate) fn position(&self) -> io::Result<u64> {
        match self {
            Reader::StandardInput(stdin) => {
                stdin.as_fd().try_clone_to_owned()?;
                Err(Error::from_raw_os_error(ESPIPE))
            }
            Reader::OpenFile(file) => {
                let mut from = file;
                from.seek(SeekFrom::Current(0))
            }
        }
    }

    pub(crate) fn go_to(&self, at: u64) -> io::Result<u64> {
        match self {
            Reader::StandardInput(_) => Err(Error::from_raw_os_error(ESPIPE)),
            Reader::OpenFile(file) => {
                let mut from = file;
                from.seek(SeekFrom::Start(at))
            }
        }
    }
}

// A path is text: a name that is none cannot be opened.
pub(crate) fn opened(rt: &HostRuntime, name: &[u8]) -> io::Result<Reader> {
    let path = str::from_utf8(name).map_err(|_| Error::from_raw_os_error(EILSEQ))?;
    fs::open(rt, path).map(Reader::OpenFile)
}
