// Numbers for C and Rust: an answer in two numbers, and what two numbers tell the tally.
#![tactic(auto)]

ghost use Rattle.std.specs.Prelude.{◌≡◌};
ghost use Rattle.exports_numbers.specs.Said.{said_of, is_told, heard_as, heard_in};

use book::Answer;
use tally::Outcome;

// An answer in two numbers.
pub fn said_of(answer: Answer) -> [u64; 2]
    ensures { result ≡ said_of answer }
{
    match answer {
        Answer::Accepted(id) => [0, id],
        Answer::Rejected(reason) => [1, reason.number()],
        Answer::Dked(reason) => [2, reason.number()],
    }
}

// The numbers that an AA tells, in the order of the checks.
const TOLD: [u64; 24] = [
    12, 13, 14, 15, 16, 17, 18, 19, 20, 21, 22, 23, 24, 25, 30, 31, 32, 33, 34, 35, 36, 37, 38, 40,
];

#[tactic(auto, unfolding(crate::specs::Said::is_told, book::specs::Checks::soundness_checks, book::specs::Checks::sender_checks, book::specs::Checks::terms_checks, book::specs::Checks::moves_checks))]
fn is_told(number: u64) -> bool
    ensures { result ≡ is_told number }
{
    TOLD.contains(&number)
}

// What two numbers tell the tally: the column of an answer that an AA tells.
#[tactic(auto, unfolding(crate::specs::Said::heard_as))]
fn hear_as(first: u64, second: u64) -> Option<Outcome>
    ensures { result ≡ heard_as first second }
{
    match first {
        0 => Some(Outcome::Accepted),
        1 if is_told(second) => Some(Outcome::Rejected),
        2 if is_told(second) => Some(Outcome::Dked),
        _ => None,
    }
}

// What the first two numbers of a slice tell the tally. Fewer tell nothing.
#[tactic(auto, unfolding(crate::specs::Said::heard_in))]
pub fn hear(said: &[u64]) -> Option<Outcome>
    ensures { result ≡ heard_in said.now }
{
    match said {
        [first, second, ..] => hear_as(*first, *second),
        _ => None,
    }
}
