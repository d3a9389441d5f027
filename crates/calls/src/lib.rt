// What a frame call and a question for a trade's figures give back. What these and an opening promise stands in specs/.
#![tactic(auto)]

use book::{Answer, Book};

// What a frame call gives back: the book after it, and the answer.
#[derive(Clone, Copy)]
pub struct Stepped {
    pub book: Book,
    pub answer: Answer,
}

// What is told of a trade: open par in cents and standing millions.
#[derive(Clone, Copy, Default)]
pub struct Figures {
    pub open_par: u64,
    pub millions: u64,
}
