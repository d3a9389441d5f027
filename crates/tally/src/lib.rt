// Decides which cell of the day's tally an answer raises: four message types by three outcomes.
#![tactic(auto)]

ghost use Rattle.std.specs.Prelude.{◌≡◌, ◌<◌, length, IfSome};
ghost use Rattle.tally.specs.Tally.{row_of, column_of, raised};

use message_type::MessageType;

// The three answers, without their numbers.
#[derive(Clone, Copy, PartialEq, Eq)]
pub enum Outcome {
    Accepted,
    Rejected,
    Dked,
}

// Types by outcomes, 32 bits a cell.
pub const TYPES: usize = 4;

pub const OUTCOMES: usize = 3;

pub type Tally = [[u32; OUTCOMES]; TYPES];

// The row of a type; a type that is not in the tally has none.
fn row_of(kind: MessageType) -> Option<usize>
    ensures row { result ≡ row_of kind }
    ensures within { IfSome result (λ row. row < 4) }
{
    match kind {
        MessageType::On => Some(0),
        MessageType::Cc => Some(1),
        MessageType::Dk => Some(2),
        MessageType::Cx => Some(3),
        MessageType::Other => None,
    }
}

// The column of an answer.
fn column_of(outcome: Outcome) -> usize
    ensures column { result ≡ column_of outcome }
    ensures within { result < 3 }
{
    outcome as usize
}

// The tally after an answer to a message of that type. A full cell stays full.
#[tactic(auto, using(crate::proofs::Cells::more_is), unfolding(crate::specs::Tally::one_more))]
pub fn raise(tally: Tally, kind: MessageType, outcome: Outcome) -> Tally
    ensures { result ≡ raised tally kind outcome }
{
    let Some(row) = row_of(kind) else {
        return tally;
    };
    let column = column_of(outcome);
    let mut raised = tally;
    raised[row][column] = tally[row][column].saturating_add(1);
    raised
}

// Four lent rows as a tally.
pub fn tally_of(rows: &[[u32; 3]]) -> Tally
    requires { length rows.now ≡ 4 }
    ensures { result ≡ rows.now }
{
    Tally::try_from(rows).unwrap()
}

// Writes a tally into four lent rows.
pub fn put_rows(rows: &mut [[u32; 3]], t: Tally)
    requires { length rows.old ≡ 4 }
    ensures { rows.new ≡ t }
{
    rows.copy_from_slice(&t);
}
