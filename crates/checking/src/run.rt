// The reader, line by line.
ghost use Rattle.std.specs.Prelude.{◌≡◌};
ghost use Rattle.reading.specs.State.{start_state};
ghost use Rattle.checking.specs.Answered.{Steps};

use format::Answer;
use reading::State;
use streams::TakesLines;

// The answer to the last line, and the state after it.
#[derive(Clone, Copy)]
pub(crate) struct Run {
    pub answer: Answer,
    pub state: State,
}

impl Run {
    // Before the first line.
    pub(crate) fn start() -> Run
        ensures { result.state ≡ start_state }
    {
        Run {
            answer: Answer::accepted(0),
            state: State::start(),
        }
    }

    // After the next line, or the end, which is an empty one.
    fn after(self, line: &[u8]) -> Run
        ensures { Steps self line.now result }
    {
        let r = self.state.line(line);
        let answer = r.answer;
        let next = r.next;
        Run {
            answer,
            state: next,
        }
    }
}

impl TakesLines for Run {
    ghost takes = { Steps };

    fn take(&mut self, _rt: &HostRuntime, line: &[u8], _failed: bool) -> bool {
        *self = self.after(line);
        (self.answer.number == 0) & (line.len() != 0)
    }
}
