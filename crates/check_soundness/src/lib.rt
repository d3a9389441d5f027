// Decides number 42: whether a lent book and its table can have come about by the engine's own calls.
#![tactic(auto)]

ghost use Rattle.std.specs.Prelude.{◌≡◌, true, ◌&&◌, ◌+◌, ◌≤◌, ◌<◌, ℕ, length, get_or, eqb};
ghost use Rattle.std.specs.List.{zip};
ghost use Rattle.lists.specs.Lists.{all};
ghost use Rattle.book.specs.Trades.{trades_of};
ghost use Rattle.book.specs.Opening.{trades_max, records_max};
ghost use Rattle.book.specs.Soundness.{kind_fine, record_fine, follows, in_order, pars_from, is_sound};
ghost use Rattle.rows.specs.Runs.{run_sum, weight_share, share_of};
ghost use Rattle.check_soundness.specs.Parts.{Light, of_one_lot, makes_up, book_fine};

use book::{Book, Pool, Trade, Values};

// A lot's millions.
const MILLIONS_MAX: u64 = 99;

// 42: kind and millions that a terminator gives.
pub fn kind_fine(p: &Pool) -> bool
    ensures { result ≡ kind_fine p.now }
{
    let good = (p.kind == book::KIND_GOOD) & ((1 <= p.millions) & (p.millions <= MILLIONS_MAX));
    let other = ((p.kind == book::KIND_ODD) | (p.kind == book::KIND_BAD)) & (p.millions == 0);
    good | other
}

// 42: a live record by itself.
fn record_fine(p: &Pool, values: &Values) -> bool
    ensures { result ≡ record_fine values.now p.now }
{
    (p.trade < values.lent.trade_count as u64)
        & (((1 <= p.message) & (p.message <= values.last_message_id))
            & ((1 <= p.ordinal) & ((p.current <= book::ELEVEN_DIGITS_MAX) & kind_fine(p))))
}

// 42: a live record after the one before it.
fn follows(before: &Pool, p: &Pool) -> bool
    ensures { result ≡ follows before.now p.now }
{
    let lot = (before.kind == p.kind) & (before.millions == p.millions);
    let ordinal = (before.ordinal < p.ordinal) | ((before.ordinal == p.ordinal) & lot);
    let message = (before.trade == p.trade) & ordinal;
    (before.message < p.message) | ((before.message == p.message) & message)
}

// Whether a record is of the lot of the one before it: only current face and matched fields can differ.
fn same_lot(before: &Pool, p: &Pool) -> bool
    ensures { result ≡ of_one_lot before.now p.now }
{
    (before.message == p.message)
        & ((before.ordinal == p.ordinal)
            & ((before.trade == p.trade)
                & ((before.kind == p.kind) & (before.millions == p.millions))))
}

// 42: a live record by itself and after a fine one, of whose lot it most often is.
fn goes(before: &Pool, p: &Pool, values: &Values) -> bool
    requires { record_fine values.now before.now ≡ true }
    ensures { result ≡ (record_fine values.now p.now && follows before.now p.now) }
{
    if same_lot(before, p) {
        p.current <= book::ELEVEN_DIGITS_MAX
    } else {
        record_fine(p, values) & follows(before, p)
    }
}

// 42: the live records, each by itself and after the one before it.
#[tactic(auto, using(crate::proofs::Chained::chained_none))]
fn records_fine(live: &[Pool], values: &Values) -> bool
    ensures { result ≡ (all (record_fine values.now) live.now && in_order live.now) }
{
    let [first, rest @ ..] = live else {
        return true;
    };
    if !record_fine(first, values) {
        return false;
    }
    let mut before = first;
    for p in rest {
        if !goes(before, p, values) {
            return false;
        }
        before = p;
    }
    true
}

// What the lots of each trade weigh.
#[tactic(auto, using(crate::proofs::Weighed::weighed_none, crate::proofs::Weighed::cell_small))]
pub fn weights(live: &[Pool]) -> [u64; book::TRADES_MAX]
    requires { (length live.now ≤ records_max) × Light live.now }
    ensures { (t : ℕ) → t < trades_max → get_or result t 0 ≡ run_sum (share_of t weight_share) 0 0 live.now }
{
    let mut sums = [0; book::TRADES_MAX];
    let mut message = 0;
    let mut ordinal = 0;
    for p in live {
        let begins = !((p.message == message) & (p.ordinal == ordinal));
        sums[p.trade as usize] += rows::weight_share(p, begins);
        message = p.message;
        ordinal = p.ordinal;
    }
    sums
}

// Whether an open par that is left and a weight make up par, which their sum might be too wide to tell.
pub fn makes_up(left: u64, weight: u64, par: u64) -> bool
    ensures { result ≡ eqb (left + weight) par }
{
    left.checked_add(weight) == Some(par)
}

// The same of trades, each with a weight of its own.
fn all_make_up(trades: &[Trade], weights: &[u64]) -> bool
    ensures { result ≡ all makes_up (zip trades.now weights.now) }
{
    trades
        .iter()
        .zip(weights)
        .all(|(t, w)| makes_up(t.open_par, *w, t.par))
}

// 42: every trade's open par is its par less what its lots weigh.
fn pars_fine(values: &Values, live: &[Pool]) -> bool
    requires { (values.now.lent.trade_count ≤ trades_max) × (length live.now ≤ records_max) × (all (record_fine values.now) live.now ≡ true) × (in_order live.now ≡ true) }
    ensures { result ≡ pars_from 0 (trades_of values.now) live.now }
{
    all_make_up(values.opened_trades(), &weights(live))
}

// 42: the book by itself, and the numbers of records and of live ones.
fn book_fine(book: &Book, records: usize) -> bool
    ensures { result ≡ book_fine book.now records }
{
    check_opening::values_fine(&book.values)
        && records <= book::RECORDS_MAX
        && book.values.connection.line.sound()
        && book.live <= records
}

// 42: whether the book and its table are sound. The seed spreads the search for equal fields, and nothing else hangs on it.
pub fn is_sound(book: &Book, pools: &[Pool], seed: u64) -> bool
    ensures { result ≡ is_sound book.now pools.now }
{
    if !book_fine(book, pools.len()) {
        return false;
    }
    let live = &pools[..book.live];
    if !records_fine(live, &book.values) {
        return false;
    }
    check_once::fields_once(live, seed)
        && rows::blank_from(pools, book.live)
        && pars_fine(&book.values, live)
}
