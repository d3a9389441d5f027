// Decides the trader's checks, 30 to 40, on a book that is sound and a message that the sender's checks let pass.
#![tactic(auto)]

ghost use Rattle.std.specs.Prelude.{◌≡◌, true, cond, ◌&&◌, ℕ, ◌+◌, ◌≤◌, length, leb, ltb, List, is_some, unwrap_or, Option};
ghost use Rattle.lists.specs.Lists.{any, keep};
ghost use Rattle.terminator.specs.Terminators.{is_canceled};
ghost use Rattle.layout.specs.Details.{details};
ghost use Rattle.terminator.specs.Lots.{formed_for};
ghost use Rattle.faces.specs.Faces.{new_pools};
ghost use Rattle.message_type.specs.Questions.{is_on};
ghost use Rattle.book.specs.Messages.{type_of, target_of, under};
ghost use Rattle.book.specs.Trades.{trades_of, trade_of_on, open_pars};
ghost use Rattle.book.specs.Opening.{records_max};
ghost use Rattle.book.specs.Soundness.{live_of, in_order};
ghost use Rattle.book.specs.Checks.{call, target_trade, trade_at, first_under, millions_fail, moves_checks, trader_checks, first_failing, Asked};
ghost use Rattle.book.specs.declared.Reason.{Reason};
ghost use Rattle.book.specs.Reasons.{Verdict};
ghost use Rattle.check_trader.specs.Decisions.{Ready, Targets, DecidedBy};
ghost use Rattle.check_trader.specs.Parts.{target_checks, new_checks};

use book::{Book, Pool, Reason, Values, Verdict, check};

// What an accepted message moves: its trade, the weight that it takes off, the weight that it brings, and a mark on each record that it takes off.
#[derive(Clone, Copy)]
pub struct Decision {
    pub trade: usize,
    pub off: u64,
    pub brought: u64,
    pub marks: [u8; book::RECORDS_MAX],
}

// The trade of the first of some records, where there are some.
fn first_trade(records: &[Pool]) -> Option<usize>
    ensures { (is_some result ≡ ltb 0 (length records.now)) × (unwrap_or result 0 ≡ first_under records.now) }
{
    records.first().map(|r| r.trade as usize)
}

// The trade of the target's live pools, where it has some.
fn target_trade(live: &[Pool], body: &[u8]) -> Option<usize>
    requires { (length live.now ≤ records_max) × (in_order live.now ≡ true) }
    ensures { Targets body.now live.now result }
{
    let run = rows_find::target_run(live, body);
    first_trade(&live[run.start..run.stop])
}

// 30 to 32, where the trade of the target's live pools is known.
#[tactic(auto, unfolding(book::specs::Checks::terms_checks))]
fn first_of_target(book: &Book, body: &[u8], target: Option<usize>) -> Verdict
    ensures { (table : List Pool) (asked : Asked) → Targets body.now (live_of book.now table) target → result ≡ first_failing target_checks (call book.now table body.now asked) }
{
    let v = &book.values;
    let trade = target.unwrap_or(0);
    check(
        header::message_type(body).lists_lots() & target.is_none(),
        Reason::Trader(30, book::TOLD),
    )?;
    check_terms::id_verdict(body, v, trade)?;
    check(
        check_terms::terms_fail(body, v, trade),
        Reason::Trader(32, book::TOLD),
    )
}

// 33, of an ON alone.
fn millions_fail(body: &[u8]) -> bool
    ensures { result ≡ (is_on (type_of body.now) && millions_fail body.now) }
{
    header::message_type(body).is_on() && header::millions_fail(body)
}

// 33 to 36, of an ON and a CC.
#[tactic(auto, unfolding(book::specs::Checks::terms_checks))]
fn first_of_new(book: &Book, body: &[u8], seed: u64) -> Verdict
    ensures { (table : List Pool) (asked : Asked) → result ≡ first_failing new_checks (call book.now table body.now asked) }
{
    let limits = book.values.lent.limits;
    if !header::message_type(body).brings_lots() {
        return Ok(());
    }
    check(millions_fail(body), Reason::Trader(33, book::TOLD))?;
    check(
        faces::faces_fail(body, limits.least),
        Reason::Trader(34, book::TOLD),
    )?;
    check(
        new_lots::lots_fail(body, limits.variance, limits.pools_a_million),
        Reason::Trader(35, book::TOLD),
    )?;
    check(
        check_once::repeated(body, seed),
        Reason::Trader(36, book::TOLD),
    )
}

// 40: whether the live pools less those that a CC takes off, and the new ones, fit the table, where 19 has passed.
fn table_fits(body: &[u8], cc: bool, live: usize, records: usize) -> bool
    requires { (live ≤ records_max) × (records ≤ records_max) }
    ensures { formed_for cc (details body.now) ≡ true → result ≡ leb (live + length (new_pools (details body.now))) (records + cond cc (length (keep is_canceled (details body.now))) 0) }
{
    let n = layout::pool_count(body);
    if !cc {
        return live + n <= records;
    }
    let new = lots::replacement_count(body);
    live + new <= records + (n - new)
}

// 38: whether a trade's open par, with the weight taken off, holds the weight brought.
fn par_fits(v: &Values, trade: usize, off: u64, brought: u64) -> bool
    ensures { result ≡ (ltb trade (length (trades_of v.now)) && leb brought ((trade_at (trades_of v.now) trade).open_par + off)) }
{
    v.opened_trades()
        .get(trade)
        .is_some_and(|t| brought.saturating_sub(off) <= t.open_par)
}

// The trade that a message concerns, where the target's is known.
fn trade_concerned(v: &Values, body: &[u8], target: usize) -> usize
    ensures { result ≡ cond (is_on (type_of body.now)) (trade_of_on body.now (trades_of v.now) (open_pars (trades_of v.now))) target }
{
    if header::message_type(body).is_on() {
        check_terms::trade_of_on(body, v)
    } else {
        target
    }
}

// 37, 38 and 40, where the target's trade is known, and what an accepted message moves.
fn decide_moves(book: &Book, pools: &[Pool], body: &[u8], target: usize) -> Result<Decision, Reason>
    requires ready { Ready book.now pools.now body.now }
    requires target_value { target_trade body.now (live_of book.now pools.now) ≡ target }
    ensures { (asked : Asked) → DecidedBy moves_checks (call book.now pools.now body.now asked) result }
{
    let v = &book.values;
    let kind = header::message_type(body);
    let brings = kind.brings_lots();
    let live = &pools[..book.live];
    let Some(marks) = check_listed::find_listed(body, live) else {
        return Err(Reason::Trader(37, book::TOLD));
    };
    let off = rows_find::weight_of_marked(live, &marks);
    let brought = check_terms::brought_weight(body);
    let trade = trade_concerned(v, body, target);
    check(
        brings & !par_fits(v, trade, off, brought),
        Reason::Trader(38, book::TOLD),
    )?;
    check(
        brings & !table_fits(body, kind.is_cc(), book.live, pools.len()),
        Reason::Operator(40, book::TOLD),
    )?;
    Ok(Decision {
        trade,
        off,
        brought,
        marks,
    })
}

// Decides 30 to 40.
pub fn decide(book: &Book, pools: &[Pool], body: &[u8], seed: u64) -> Result<Decision, Reason>
    requires { Ready book.now pools.now body.now }
    ensures { (asked : Asked) → DecidedBy trader_checks (call book.now pools.now body.now asked) result }
{
    let target = target_trade(&pools[..book.live], body);
    first_of_target(book, body, target)?;
    first_of_new(book, body, seed)?;
    decide_moves(book, pools, body, target.unwrap_or(0))
}
