// An input checked line by line, for the programs: files of any length in constant memory.
#![tactic(auto)]

ghost use Rattle.checking.specs.Answered.{Answered};

use format::Answer;
use reading::State;
use run::Run;
use streams::{Input, Lines};

mod run;

// The answer to the last line, the state after it, and what is taken of the buffer: a refused line stands next in it.
#[derive(Drop)]
pub struct Checked {
    pub answer: Answer,
    pub state: State,
    pub lines: Lines,
}

// Checks an input up to the first line that is refused, or its end.
pub fn check(rt: &HostRuntime, input: &Input, buffer: &mut [u8]) -> Checked
    ensures { Answered result buffer.new }
{
    let mut run = Run::start();
    let lines = Lines::start().each(rt, input, buffer, &mut run);
    Checked {
        answer: run.answer,
        state: run.state,
        lines,
    }
}
