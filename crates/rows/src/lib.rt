// The table of live pools: a record of zeros, records that are zeros, what a record adds to its lot's weight, and the live records closed up.
#![tactic(auto)]

ghost use Rattle.std.specs.Prelude.{◌≡◌, ◌≤◌, eqb, length, take, drop, replicate};
ghost use Rattle.std.specs.Int.{w64, from_le_bytes, to_le_bytes};
ghost use Rattle.lists.specs.Lists.{all};
ghost use Rattle.terminator.specs.Terminators.{millions_most};
ghost use Rattle.book.specs.Opening.{eleven_digits_max};
ghost use Rattle.book.specs.Records.{no_pool};
ghost use Rattle.book.specs.Soundness.{is_none};
ghost use Rattle.rows.specs.Closed.{unmarked, closed_up};
ghost use Rattle.rows.specs.Runs.{weight_share};
ghost use Rattle.rows.specs.Words.{words_of, fields_in};

use book::Pool;
use layout::Matched;

// The record of zeros.
pub fn none() -> Pool
    ensures { result ≡ no_pool }
{
    Pool {
        message: 0,
        ordinal: 0,
        trade: 0,
        matched: Matched {
            lot: [0; layout::LOT_ID.width],
            pool: [0; layout::POOL_NUMBER.width],
            original: [0; layout::ORIGINAL_FACE.width],
        },
        current: 0,
        kind: 0,
        millions: 0,
    }
}

// Puts zeros into every record.
pub fn clear(pools: &mut [Pool])
    ensures { pools.new ≡ replicate (length pools.old) no_pool }
{
    pools.fill(none());
}

// Eight bytes as one word, which gives them back.
fn word(bytes: [u8; 8]) -> u64
    ensures value { result ≡ from_le_bytes w64 bytes }
    ensures back { to_le_bytes w64 result ≡ bytes }
{
    u64::from_le_bytes(bytes)
}

// The matched fields as three words, which give them back.
pub fn words(f: &Matched) -> [u64; 3]
    ensures value { result ≡ words_of f.now }
    ensures back { fields_in result ≡ f.now }
{
    let Matched {
        lot: l,
        pool: p,
        original: o,
    } = *f;
    [
        word([l[0], l[1], l[2], l[3], l[4], l[5], p[0], p[1]]),
        word([p[2], p[3], p[4], p[5], p[6], o[0], o[1], o[2]]),
        word([o[3], o[4], o[5], o[6], o[7], o[8], 0, 0]),
    ]
}

// Every bit that stands in some number or byte of a record.
#[tactic(auto, using(crate::proofs::WordLaws::bits_none))]
fn bits(p: &Pool) -> u64
    ensures { eqb result 0 ≡ is_none p.now }
{
    let w = words(&p.matched);
    p.message | p.ordinal | p.trade | w[0] | w[1] | w[2] | p.current | p.kind | p.millions
}

// Whether a record is zeros.
pub fn is_none(p: &Pool) -> bool
    ensures { result ≡ is_none p.now }
{
    bits(p) == 0
}

// Whether every record is zeros: their bits are joined, and tested once.
#[tactic(auto, using(std::proofs::lemmas::Grind::common_steps, crate::proofs::WordLaws::or_zero))]
fn blank(pools: &[Pool]) -> bool
    ensures { result ≡ all is_none pools.now }
{
    let mut all = 0;
    for p in pools {
        all |= bits(p);
    }
    all == 0
}

// Whether every record from a place on is zeros.
pub fn blank_from(pools: &[Pool], from: usize) -> bool
    ensures { result ≡ all is_none (drop from pools.now) }
{
    pools.get(from..).is_none_or(|rest| blank(rest))
}

// What a record adds to the weight of its lot, given whether it begins the lot.
pub fn weight_share(p: &Pool, begins: bool) -> u64
    requires { (p.now.current ≤ eleven_digits_max) × (p.now.millions ≤ millions_most) }
    ensures { (result ≡ weight_share begins p.now) × (result ≤ eleven_digits_max) }
{
    if p.kind != book::KIND_GOOD {
        p.current
    } else if begins {
        p.millions * terminator::MILLION_CENTS
    } else {
        0
    }
}

// Puts a record into the place of another: its fields, into a record of zeros. What the layout leaves after the matched fields does not go with them.
pub fn put(place: &mut Pool, p: &Pool)
    ensures { place.new ≡ p.now }
{
    *place = none();
    place.message = p.message;
    place.ordinal = p.ordinal;
    place.trade = p.trade;
    place.matched = p.matched;
    place.current = p.current;
    place.kind = p.kind;
    place.millions = p.millions;
}

// Takes the marked records out of the live ones, and gives the number of those that are left.
pub fn close_up(pools: &mut [Pool], live: usize, marks: &[u8]) -> usize
    requires { (live ≤ length pools.old) × (live ≤ length marks.now) }
    ensures { (result ≡ length (unmarked marks.now (take live pools.old))) × (pools.new ≡ closed_up marks.now live pools.old) }
{
    let mut kept = 0;
    for (i, mark) in marks[..live].iter().enumerate() {
        let marked = *mark != 0;
        if !marked {
            let p = pools[i];
            put(&mut pools[kept], &p);
            kept += 1;
        }
    }
    pools[kept..live].fill(none());
    kept
}
