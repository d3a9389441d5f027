// Lends the tally to Rust and C: four rows of three cells, in a lent slice.
#![tactic(auto)]

ghost use Rattle.std.specs.Prelude.{◌≡◌};
ghost use Rattle.compare_tally.specs.Rows.{type_of, outcome_of, rows_raised};

use message_type::MessageType;
use tally::Outcome;

// A type by its number; what is not one of the four is another.
#[tactic(auto, using(std::proofs::lemmas::Bool::Decides::nat_tests), unfolding(crate::specs::Rows::type_of))]
fn type_of(n: u64) -> MessageType
    ensures { result ≡ type_of n }
{
    match n {
        0 => MessageType::On,
        1 => MessageType::Cc,
        2 => MessageType::Dk,
        3 => MessageType::Cx,
        _ => MessageType::Other,
    }
}

// An answer by its number; what is neither accepted nor rejected is DKed.
#[tactic(auto, using(std::proofs::lemmas::Bool::Decides::nat_tests), unfolding(crate::specs::Rows::outcome_of))]
fn outcome_of(n: u64) -> Outcome
    ensures { result ≡ outcome_of n }
{
    match n {
        0 => Outcome::Accepted,
        1 => Outcome::Rejected,
        _ => Outcome::Dked,
    }
}

// Raises the cell of a type and an answer among four rows.
#[tactic(auto, unfolding(crate::specs::Rows::rows_raised))]
#[unsafe(no_mangle)]
pub extern "C" fn rhoikandra_tally_raise(rows: &mut [[u32; 3]], kind: u64, outcome: u64)
    ensures { rows.new ≡ rows_raised rows.old kind outcome }
{
    if rows.len() == tally::TYPES {
        let raised = tally::raise(tally::tally_of(rows), type_of(kind), outcome_of(outcome));
        tally::put_rows(rows, raised);
    }
}
