// The allocation book: what opening lends, what it keeps, the record of a live pool, and the answers that a frame gets.
#![tactic(auto)]

ghost use Rattle.std.specs.Prelude.{◌≡◌, ◌≤◌, cond, Ok, Err, length};
ghost use Rattle.trade_id.specs.SpecialInstructions.{id_length_max};
ghost use Rattle.book.specs.Trades.{trade_name, trades_of};
ghost use Rattle.book.specs.Opening.{holidays_of};
ghost use Rattle.book.specs.Reasons.{number_of, is_silent_for, is_traders, refusal, code_of, id_of, is_accepted, is_silent};
ghost use Rattle.book.specs.Step.{outcome_of};

use layout::Matched;
use message_type::MessageType;
use sequence::{Line, Outbound};
use tally::Outcome;
use terminator::Kind;

// The most trades and holidays that opening lends, and records that a table has.
pub const TRADES_MAX: usize = 64;

pub const HOLIDAYS_MAX: usize = 32;

pub const RECORDS_MAX: usize = 4096;

// Eleven digits: message IDs, and par in cents.
pub const ELEVEN_DIGITS_MAX: u64 = 99999999999;

// The highest least face, in dollars: no original face is higher.
pub const FACE_MAX: u64 = faces::ORIGINAL_MOST;

// The most characters of a trade's ID.
pub const ID_MAX: usize = trade_id::ID_LENGTH_MAX;

// The room that 44 asks for: a TX and an AA.
pub const ROOM_LEAST: usize = acknowledgment::TX_LENGTH + acknowledgment::AA_LENGTH;

// A trade. Only the first length bytes of id are its ID; price has nine decimals, par and open par are cents.
#[derive(Clone, Copy)]
pub struct Trade {
    pub id: [u8; ID_MAX],
    pub length: usize,
    pub seller: [u8; 4],
    pub buyer: [u8; 4],
    pub contra: [u8; 4],
    pub cusip: [u8; 9],
    pub settlement: u64,
    pub price: u64,
    pub par: u64,
    pub open_par: u64,
}

impl Trade {
    // The bytes of its ID, also where length says more than there are.
    pub fn name(&self) -> &[u8]
        ensures bytes { result.now ≡ trade_name self.now }
        ensures short { length result.now ≤ id_length_max }
    {
        &self.id[..self.length.min(ID_MAX)]
    }
}

// GDMM ceiling, variance in cents a million, pools a million, least face in dollars.
#[derive(Clone, Copy)]
pub struct Limits {
    pub ceiling: u64,
    pub variance: u64,
    pub pools_a_million: u64,
    pub least: u64,
}

// What opening lends and no call moves: of trades and holidays the first so many count.
#[derive(Clone, Copy)]
pub struct Lent {
    pub trade_count: usize,
    pub holidays: [u32; HOLIDAYS_MAX],
    pub holiday_count: usize,
    pub subscriber: [u8; 4],
    pub limits: Limits,
}

// What belongs to a connection: its ID, the inbound line, and the last outbound number used.
#[derive(Clone, Copy)]
pub struct Connection {
    pub id: [u8; 4],
    pub line: Line,
    pub outbound: Outbound,
}

// What opening lends, and what of it calls move: the trades, the last message ID and the connection. The line is opening's own to set.
#[derive(Clone, Copy)]
pub struct Values {
    pub trades: [Trade; TRADES_MAX],
    pub lent: Lent,
    pub last_message_id: u64,
    pub connection: Connection,
}

impl Values {
    // The trades that are opened.
    pub fn opened_trades(&self) -> &[Trade]
        ensures { result.now ≡ trades_of self.now }
    {
        &self.trades[..self.lent.trade_count.min(TRADES_MAX)]
    }

    // The holidays that are opened.
    pub fn opened_holidays(&self) -> &[u32]
        ensures { result.now ≡ holidays_of self.now }
    {
        &self.lent.holidays[..self.lent.holiday_count.min(HOLIDAYS_MAX)]
    }
}

// The book: opening's values, which move with each call, and the number of live pools in the table.
#[derive(Clone, Copy)]
pub struct Book {
    pub values: Values,
    pub live: usize,
}

// What a call is given besides book, table, body and output: the time bytes of its AA, and a seed that no definition reads: a search for equal fields spreads them by it.
#[derive(Clone, Copy)]
pub struct Caller {
    pub time: [u8; acknowledgment::TIME_WIDTH],
    pub seed: u64,
}

// A live pool: under which message ID it came, its lot's ordinal there, its trade, the three matched fields as bytes,
// its current face in cents, its lot's kind (1 good, 2 odd, 3 bad) and millions.
#[repr(C)]
#[derive(Clone, Copy)]
pub struct Pool {
    pub message: u64,
    pub ordinal: u64,
    pub trade: u64,
    pub matched: Matched,
    pub current: u64,
    pub kind: u64,
    pub millions: u64,
}

// The kinds of a lot as a record has them: a record that is lent may have any other number.
pub const KIND_GOOD: u64 = Kind::Good as u64;

pub const KIND_ODD: u64 = Kind::Odd as u64;

pub const KIND_BAD: u64 = Kind::Bad as u64;

// Whether a refusal moves nothing and writes nothing, or is told by an AA.
pub const SILENT: bool = true;

pub const TOLD: bool = false;

// Why a frame or an opening is refused: who causes it, with the paper's number and whether it is silent.
#[derive(Clone, Copy)]
pub enum Reason {
    Operator(u64, bool),
    Line(u64, bool),
    Sender(u64, bool),
    Trader(u64, bool),
}

impl Reason {
    // What a reason holds, whoever causes it: its number, and whether it is silent.
    fn parts(self) -> (u64, bool)
        ensures { (result.0 ≡ number_of self) × (result.1 ≡ is_silent_for self) }
    {
        match self {
            Reason::Operator(number, silent)
            | Reason::Line(number, silent)
            | Reason::Sender(number, silent)
            | Reason::Trader(number, silent) => (number, silent),
        }
    }

    // The paper's number of a reason.
    pub fn number(self) -> u64
        ensures { result ≡ number_of self }
    {
        self.parts().0
    }

    // Whether it moves nothing and writes nothing.
    pub fn is_silent(self) -> bool
        ensures { result ≡ is_silent_for self }
    {
        self.parts().1
    }

    // Whether the trader causes it.
    pub fn is_traders(self) -> bool
        ensures { result ≡ is_traders self }
    {
        matches!(self, Reason::Trader(..))
    }
}

// What a list of checks says: all pass, or the first that fails.
pub type Verdict = Result<(), Reason>;

// A check by what its test says.
pub fn check(fails: bool, reason: Reason) -> Verdict
    ensures { result ≡ cond fails (Err reason) (Ok tt) }
{
    if fails { Err(reason) } else { Ok(()) }
}

// What a frame gets.
#[derive(Clone, Copy)]
pub enum Answer {
    Accepted(u64),
    Rejected(Reason),
    Dked(Reason),
}

impl Answer {
    // A trader's number is DKed, but on a DK rejected; every other is rejected.
    pub fn refusal(kind: MessageType, reason: Reason) -> Answer
        ensures { result ≡ refusal kind reason }
    {
        if reason.is_traders() & !kind.answers_as_dk() {
            Answer::Dked(reason)
        } else {
            Answer::Rejected(reason)
        }
    }

    // The code of an AA: 0 where the message is accepted.
    pub fn code(self) -> u64
        ensures { result ≡ code_of self }
    {
        match self {
            Answer::Accepted(_) => 0,
            Answer::Rejected(reason) | Answer::Dked(reason) => reason.number(),
        }
    }

    // The message ID of an AA.
    pub fn id(self) -> u64
        ensures { result ≡ id_of self }
    {
        match self {
            Answer::Accepted(id) => id,
            _ => 0,
        }
    }

    // Whether it moves nothing and writes nothing.
    pub fn is_silent(self) -> bool
        ensures { result ≡ is_silent self }
    {
        match self {
            Answer::Accepted(_) => false,
            Answer::Rejected(reason) | Answer::Dked(reason) => reason.is_silent(),
        }
    }

    // Whether it is that of an accepted message.
    pub fn is_accepted(self) -> bool
        ensures { result ≡ is_accepted self }
    {
        matches!(self, Answer::Accepted(_))
    }

    // The column of the tally that it belongs to.
    pub fn outcome(self) -> Outcome
        ensures { result ≡ outcome_of self }
    {
        match self {
            Answer::Accepted(_) => Outcome::Accepted,
            Answer::Rejected(_) => Outcome::Rejected,
            Answer::Dked(_) => Outcome::Dked,
        }
    }
}
