// Fields of a line: what stands in them, and the number of what is wrong first (0: nothing).
#![tactic(auto)]

pub mod accounts;
pub mod arrival;
pub mod bytes;
pub mod dates;
pub mod filled;
pub mod lines;
pub mod numbers;
pub mod texts;
