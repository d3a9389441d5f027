// Which trade ID the special instructions of a message name, and whether two prices agree.
#![tactic(auto)]

ghost use Rattle.std.specs.Prelude.{◌≡◌, ◌+◌, ◌≤◌, IfSome, length, take, drop};
ghost use Rattle.std.specs.Bool.{OnTrue};
ghost use Rattle.trade_id.specs.SpecialInstructions.{id_length_max, mark, begins_with_mark, mark_in, until_equals, id_at, trade_id_of};
ghost use Rattle.trade_id.specs.Prices.{prices_agree};

// What the special instructions hold: a whole ID, by the place of its first character and its length; one begun but not whole; none.
#[derive(Clone, Copy, PartialEq, Eq)]
pub enum TradeId {
    Whole { place: usize, length: usize },
    Broken,
    Absent,
}

const MARK: &[u8] = b"TRID=";

pub const ID_LENGTH_MAX: usize = 16;

// A division by this drops the last three decimals of a price.
const LAST_THREE: u64 = 1000;

// Whether "TRID=" stands at a place.
#[tactic(auto, unfolding(crate::specs::SpecialInstructions::begins_with_mark))]
fn mark_at(special: &[u8], at: usize) -> bool
    requires { at ≤ length special.now }
    ensures value { result ≡ begins_with_mark (drop at special.now) }
    ensures room { OnTrue result (at + length mark ≤ length special.now) }
{
    special[at..].starts_with(MARK)
}

// Finds the first "TRID=".
fn find_mark(special: &[u8]) -> Option<usize>
    ensures first { result ≡ mark_in special.now }
    ensures room { IfSome result (λ at. at + length mark ≤ length special.now) }
{
    (0..special.len()).find(|at| mark_at(special, *at))
}

// How many bytes stand before the first "=" from start on. It looks at no more bytes than the longest ID and its "=".
fn run_at(special: &[u8], start: usize) -> Option<usize>
    requires { start ≤ length special.now }
    ensures run { result ≡ until_equals (take (id_length_max + 1) (drop start special.now)) }
    ensures few { IfSome result (λ n. n ≤ id_length_max) }
{
    let (_, rest) = special.split_at(start);
    rest.iter().take(ID_LENGTH_MAX + 1).position(|b| *b == b'=')
}

// Measures the ID whose first character is at start.
#[tactic(auto, using(crate::proofs::Runs::front_is_enough), unfolding(crate::specs::SpecialInstructions::id_at))]
fn measure_id(special: &[u8], start: usize) -> TradeId
    requires { start ≤ length special.now }
    ensures { result ≡ id_at special.now start }
{
    match run_at(special, start) {
        None | Some(0) => TradeId::Broken,
        Some(length) => TradeId::Whole {
            place: start,
            length,
        },
    }
}

// Finds the trade ID in the special instructions.
#[tactic(auto, unfolding(crate::specs::SpecialInstructions::trade_id_of))]
pub fn find_trade_id(special: &[u8]) -> TradeId
    ensures { result ≡ trade_id_of special.now }
{
    match find_mark(special) {
        Some(at) => measure_id(special, at + MARK.len()),
        None => TradeId::Absent,
    }
}

// Whether two prices of nine implied decimals are equal after the last three are dropped.
pub fn prices_agree(a: u64, b: u64) -> bool
    ensures { result ≡ prices_agree a b }
{
    a / LAST_THREE == b / LAST_THREE
}
