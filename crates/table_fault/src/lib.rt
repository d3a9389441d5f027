// Which rule of soundness, number 42, a book breaks first on a lent table of pool records.
#![tactic(auto)]

ghost use Rattle.std.specs.Prelude.{◌≡◌, true, ◌&&◌, ◌+◌, ◌≤◌, min, length, slice_index, eqb, ltb};
ghost use Rattle.lists.specs.Lists.{all};
ghost use Rattle.book.specs.Trades.{trades_of};
ghost use Rattle.book.specs.Opening.{trades_max, records_max};
ghost use Rattle.book.specs.Soundness.{live_of, record_fine, in_order};
ghost use Rattle.fault.specs.Rules.{each};
ghost use Rattle.fault.specs.Faults.{par_fault, table_fault, book_fault};
ghost use Rattle.table_fault.specs.Pars.{makes_par};

use book::{Book, Pool, Trade, Values};
use fault::Fault;

// Whether a trade's open par and the weight of its place make up its par.
fn makes_par(t: &Trade, weights: &[u64], place: u64) -> bool
    ensures { result ≡ makes_par weights.now place t.now }
{
    weights.get(place as usize).is_some_and(|weight| check_soundness::makes_up(
        t.open_par, *weight, t.par,
    ))
}

// 161: the first trade whose open par is not par less what its lots weigh.
fn pars_fault(values: &Values, live: &[Pool]) -> Option<Fault>
    requires { (values.now.lent.trade_count ≤ trades_max) × (length live.now ≤ records_max) × (all (record_fine values.now) live.now ≡ true) × (in_order live.now ≡ true) }
    ensures { result ≡ each (par_fault live.now) 0 (trades_of values.now) }
{
    let weights = check_soundness::weights(live);
    fault::first_of(values.opened_trades(), 0, |place, t, _| {
        fault::tested(161, place, makes_par(t, &weights, place))
    })
}

// The rules before those on open pars, in their order. None is asked after one that is broken.
fn before_pars(book: &Book, pools: &[Pool], live: &[Pool]) -> Option<Fault>
    requires { (live.now ≡ live_of book.now pools.now) × (length live.now ≡ min book.now.live (length pools.now)) }
    ensures { result ≡ table_fault book.now pools.now }
{
    fault_opening::opening_fault(&book.values, pools.len())
        .or_else(|| fault::tested(142, 0, book.values.connection.line.sound()))
        .or_else(|| fault::tested(143, 0, book.live <= pools.len()))
        .or_else(|| fault_records::records_fault(live, &book.values))
        .or_else(|| fault_records::order_fault(live))
        .or_else(|| fault_records::once_fault(live))
        .or_else(|| fault_records::zeros_fault(pools, live.len()))
}

// The rule that a book and its table break first, on any book and table.
pub fn table_fault(book: &Book, pools: &[Pool]) -> Option<Fault>
    ensures { result ≡ book_fault book.now pools.now }
{
    let live = &pools[..book.live.min(pools.len())];
    match before_pars(book, pools, live) {
        Some(fault) => Some(fault),
        None => pars_fault(&book.values, live),
    }
}
