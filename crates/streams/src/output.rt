// Standard output, and what became of what was printed there.
ghost use Rattle.std.specs.Prelude.{◌≡◌, is_ok};
ghost use Rattle.streams.specs.Status.{is_whole, printed_of};

use crate::failures::fail;
use std::io;
use std::io::ErrorKind;

// All of it was written, or not, or nobody reads it any more.
#[derive(Clone, Copy)]
pub enum Printed {
    Whole,
    Failed,
    Unread,
}

impl Printed {
    pub fn is_whole(self) -> bool
        ensures { result ≡ is_whole self }
    {
        matches!(self, Printed::Whole)
    }
}

// Whether standard output was written, told on standard error where it was not.
pub fn told(rt: &HostRuntime, written: io::Result<()>) -> bool
    ensures { result ≡ is_ok written }
{
    written
        .inspect_err(|e| fail(rt, b"standard output", e))
        .is_ok()
}

// What became of it; that nobody reads it any more is not told.
pub fn outcome(rt: &HostRuntime, written: io::Result<()>) -> Printed
    ensures { result ≡ printed_of written }
{
    match written {
        Ok(()) => Printed::Whole,
        Err(e) => match e.kind() {
            ErrorKind::BrokenPipe => Printed::Unread,
            _ => {
                told(rt, Err(e));
                Printed::Failed
            }
        },
    }
}
