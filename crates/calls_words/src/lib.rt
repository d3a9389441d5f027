// What the calls on words promise, for C and Rust: the contracts of the exported calls. There is no code here.
#![tactic(auto)]
