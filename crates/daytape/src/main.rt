// Prints the day of a tape: the frames accepted and all other whole frames, then the trade's open par and its standing good millions (01, Program daytape).
// Trusted is what the C library's read and write do. All bytes that come are read, up to 64 KiB; what a failing read leaves out is not on the tape.
#![tactic(auto)]

ghost use Rattle.std.specs.Prelude.{◌≡◌, ◌≤◌, true, length, take};
ghost use Rattle.std.specs.Io.KnownBytes.{Consumes};
ghost use Rattle.book.specs.Opening.{values_fine};
ghost use Rattle.daytape.specs.Program.{values_given, ReportsOver, Reports};

use book::{Connection, Lent, Limits, Trade, Values};
use sequence::{Line, Outbound};
use std::io::{self, Read};

const RECORDS: usize = 512;

// The most that is read of standard input.
const TAPE_MAX: usize = 65536;

// What the day gives: the two counts, and the trade's figures.
#[derive(Clone, Copy)]
struct Report {
    accepted: u64,
    others: u64,
    open_par: u64,
    millions: u64,
}

// The trade T1.
const THE_TRADE: Trade = Trade {
    id: *b"T1\0\0\0\0\0\0\0\0\0\0\0\0\0\0",
    length: 2,
    seller: *b"MBAA",
    buyer: *b"MBBB",
    contra: *b"FTBA",
    cusip: *b"01F082630",
    settlement: 7142026,
    price: 98500000000,
    par: 200000000,
    open_par: 200000000,
};

// What the program opens its book with.
#[tactic(auto, unfolding(crate::specs::Program::values_given))]
fn values() -> Values
    ensures { result ≡ values_given }
{
    let mut trades = [image::no_trade(); book::TRADES_MAX];
    trades[0] = THE_TRADE;
    Values {
        trades,
        lent: Lent {
            trade_count: 1,
            holidays: [0; book::HOLIDAYS_MAX],
            holiday_count: 0,
            subscriber: *b"0123",
            limits: Limits {
                ceiling: 2500,
                variance: 10000,
                pools_a_million: 3,
                least: 1000,
            },
        },
        last_message_id: 0,
        connection: Connection {
            id: *b"1200",
            line: Line::start(),
            outbound: Outbound(0),
        },
    }
}

// The day of a tape, over a table of the program's own, with values that are in range. A book that opening refuses is run as well, and each frame put to it gets 42.
fn day_over(v: Values, tape: &[u8]) -> Report
    ensures { values_fine v ≡ true → ReportsOver v tape.now result }
{
    let mut pools = [rows::none(); RECORDS];
    let book = table_open::open_table(v, &mut pools).unwrap_or_else(|refused| refused);
    let day = day::run_day(book, &mut pools, tape);
    let figures = table_figures::table_figures(&day.book, &pools, 0, 0).unwrap_or_default();
    Report {
        accepted: day.accepted,
        others: day.others,
        open_par: figures.open_par,
        millions: figures.millions,
    }
}

// The day of a tape, with the program's values.
#[tactic(auto, using(crate::proofs::Given::given_fine))]
fn day_of(tape: &[u8]) -> Report
    ensures { Reports tape.now result }
{
    day_over(values(), tape)
}

// Reads what comes into a buffer, up to its end, and says how many bytes came: they are the next of the reader's. What a failing read leaves out is not on the tape.
fn read_full<R: Read>(input: &mut R, tape: &mut [u8]) -> usize
    ensures fits { result ≤ length tape.new }
    ensures bytes { Consumes (R.remaining input.old) (R.remaining input.new) (take result tape.new) }
{
    let mut n = 0;
    while n < tape.len() {
        match input.read(&mut tape[n..]) {
            Ok(0) | Err(_) => return n,
            Ok(more) => n += more,
        }
    }
    n
}

fn main(rt: HostRuntime) -> io::Result<()> {
    let mut tape = [0; TAPE_MAX];
    let n = read_full(&mut rt.stdin(), &mut tape);
    let r = day_of(&tape[..n]);
    println!(rt; "day {} {}", r.accepted, r.others)?;
    println!(rt; "trade T1 {} {}", r.open_par, r.millions)
}
