// What is told on standard error: what failed, a colon, and the system's words for why.
use field::bytes::part;
use std::io;
use std::io::{Cursor, Error, Print, Write};

// What stands behind the system's words where an error is printed.
const NUMBER: &[u8] = b" (os error ";

// What failed was told.
#[derive(Drop)]
pub(crate) struct Told;

// Where standard error cannot be written there is nowhere left to say so.
fn say(rt: &HostRuntime, bytes: &[u8]) {
    let _ = rt.stderr().write_all(bytes);
}

fn without_number(words: &[u8]) -> &[u8] {
    let number = words.windows(NUMBER.len()).position(|w| w == NUMBER);
    part(words, 0, number.unwrap_or(words.len()))
}

// As many of the system's words as there is room for.
pub(crate) fn fail(rt: &HostRuntime, what: &[u8], error: &Error) {
    let mut printed = Cursor::new([0u8; 256]);
    let _ = write!(printed, "{error}");
    let count = printed.position() as usize;
    say(rt, what);
    say(rt, b": ");
    say(rt, without_number(part(printed.get_ref(), 0, count)));
    say(rt, b"\n");
}

// What was done, or that it failed, which is told.
pub(crate) fn or_told<T>(rt: &HostRuntime, what: &[u8], done: io::Result<T>) -> Result<T, Told> {
    done.map_err(|e| {
        fail(rt, what, &e);
        Told
    })
}
