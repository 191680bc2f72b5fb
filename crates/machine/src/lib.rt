// No code: lists, digits, and a reader of lines whatever a line is (specs/, proofs/).
#![tactic(auto)]
