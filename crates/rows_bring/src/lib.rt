// The pools of a message staged before anything is stored, and those of its new lots stored as records of the table, lot by lot.
#![tactic(auto)]

ghost use Rattle.std.specs.Prelude.{◌≡◌, map, ◌+◌, ◌*◌, ◌≤◌, length};
ghost use Rattle.lists.specs.Lists.{pasted};
ghost use Rattle.layout.specs.Details.{details, pool_count};
ghost use Rattle.terminator.specs.Lots.{current_cents};
ghost use Rattle.faces.specs.Faces.{new_lots};
ghost use Rattle.book.specs.Dues.{due};
ghost use Rattle.book.specs.Records.{records_of};
ghost use Rattle.rows_bring.specs.Staged.{three_digits, terminator_number, number_term, staged, AreStaged};
ghost use Rattle.rows_bring.specs.Stored.{common_of, record_with, records_from};

use book::Pool;
use layout::Detail;
use terminator::Terminator;

// The pools of a message before anything is stored: current faces in cents and terminators, zeros after the last pool.
#[derive(Clone, Copy)]
pub struct Staged {
    pub faces: [u64; layout::POOLS_MAX],
    pub terminators: [u64; layout::POOLS_MAX],
}

// What position one of a terminator counts in its number.
const POSITION_ONE: u64 = 10000;

// What positions two to four are where they are not digits.
const NO_DIGITS: u64 = 1000;

fn three_digits(f: Option<u64>) -> u64
    ensures { result ≡ three_digits f }
{
    f.unwrap_or(NO_DIGITS)
}

// The number of a terminator by its position one and the number of the others.
fn joined(one: u8, three: u64) -> u64
    requires { three ≤ 1000 }
    ensures { result ≡ one * 10000 + three }
{
    u64::from(one) * POSITION_ONE + three
}

// A terminator as one number.
#[tactic(auto, using(crate::proofs::Numbers::three_small), unfolding(crate::specs::Staged::terminator_number))]
fn terminator_number(d: Detail) -> u64
    ensures { result ≡ terminator_number d }
{
    let bytes = d.terminator;
    let three = fields::read_number(&bytes, 1, 3);
    joined(bytes[0], three_digits(three))
}

// Stages the pools of a message.
pub fn stage(body: &[u8]) -> Staged
    ensures { result ≡ staged (details body.now) }
{
    let mut faces = [0u64; layout::POOLS_MAX];
    let mut terminators = [0u64; layout::POOLS_MAX];
    for (i, pool) in detail_reader::pools(body).enumerate() {
        faces[i] = terminator::current_cents(pool);
        terminators[i] = terminator_number(pool);
    }
    Staged { faces, terminators }
}

// What positions two to four of a staged terminator say.
fn staged_term(number: u64) -> Terminator
    ensures { result ≡ number_term number }
{
    terminator::positions_two_to_four(number % POSITION_ONE)
}

// What the records of a lot have in common.
#[derive(Clone, Copy)]
struct Common {
    message: u64,
    ordinal: u64,
    trade: u64,
    kind: u64,
    millions: u64,
}

impl Common {
    // The same of the lot that a terminator ends.
    fn of(end: Terminator, message: u64, ordinal: u64, trade: u64) -> Common
        ensures { result ≡ common_of end message ordinal trade }
    {
        Common {
            message,
            ordinal,
            trade,
            kind: end.kind().number(),
            millions: end.millions(),
        }
    }

    // The record of one of the lot's pools, with its current face in cents.
    fn record_with(&self, pool: Detail, current: u64) -> Pool
        ensures { result ≡ record_with self.now pool current }
    {
        Pool {
            message: self.message,
            ordinal: self.ordinal,
            trade: self.trade,
            matched: pool.matched,
            current,
            kind: self.kind,
            millions: self.millions,
        }
    }
}

// Writes the records of a lot, whose pools begin with the given one and whose faces are staged.
#[tactic(auto, using(layout::proofs::Lengths::count_max, crate::proofs::Pools::written_more), unfolding(crate::specs::Stored::records_from))]
fn put_lot(
    pools: &mut [Pool],
    body: &[u8],
    faces: &[u64; layout::POOLS_MAX],
    first: usize,
    lot: &Common,
)
    requires { (first + length pools.old ≤ pool_count body.now) × AreStaged current_cents body.now faces.now }
    ensures { pools.new ≡ records_from body.now lot.now first (length pools.old) }
{
    for (k, record) in pools.iter_mut().enumerate() {
        let i = first + k;
        *record = lot.record_with(layout::pool_at(body, i), faces[i]);
    }
}

// Stores the records of the message's new lots from at on, with ordinals from 1, and gives the place after them: the lots that the staged terminators form, with the staged faces.
#[tactic(auto, using(layout::proofs::Lengths::count_max))]
pub fn put_lots(
    pools: &mut [Pool],
    at: usize,
    body: &[u8],
    staged: &Staged,
    message: u64,
    trade: u64,
) -> usize
    requires room { at + length (records_of message 1 (map (due trade) (new_lots (details body.now)))) ≤ length pools.old }
    requires are_staged { AreStaged current_cents body.now staged.now.faces × AreStaged terminator_number body.now staged.now.terminators }
    ensures { (result ≡ at + length (records_of message 1 (map (due trade) (new_lots (details body.now)))))
        × (pools.new ≡ pasted pools.old at (records_of message 1 (map (due trade) (new_lots (details body.now))))) }
{
    let mut place = at;
    let mut ordinal: u64 = 1;
    let mut first: usize = 0;
    let terminators = &staged.terminators[..layout::pool_count(body)];
    for (last, number) in terminators.iter().enumerate() {
        let end = staged_term(*number);
        if end.is_end() {
            if *number / POSITION_ONE != u64::from(terminator::CANCELED) {
                let lot = Common::of(end, message, ordinal, trade);
                let next = place + (last + 1 - first);
                let own = &mut pools[place..next];
                put_lot(own, body, &staged.faces, first, &lot);
                place = next;
                ordinal += 1;
            }
            first = last + 1;
        }
    }
    place
}
