// Trades' terms: whether a message's agree with them, which trade an ID names and where an ON goes, and checks 31 and 32.
#![tactic(auto)]

ghost use Rattle.std.specs.Prelude.{◌≡◌, ◌≤◌, ◌&&◌, cond, ℕ, leb, length};
ghost use Rattle.lists.specs.Lists.{any, same};
ghost use Rattle.layout.specs.Columns.{bytes_in};
ghost use Rattle.book.specs.declared.Trade.{Trade};
ghost use Rattle.book.specs.Trades.{trades_of, side_of, number_is, price_is, agrees, first_trade, brought_weight, open_pars, is_named_by, trade_of_on};
ghost use Rattle.check_terms.specs.Reading.{stated_of};
ghost use Rattle.trade_id.specs.declared.TradeId.TheVariants.{Whole};
ghost use Rattle.book.specs.declared.Reason.TheVariants as by;
ghost use Rattle.book.specs.Reasons.{told};
ghost use Rattle.std.specs.Prelude.{Ok, Err};
ghost use Rattle.book.specs.Messages.{id_in};
ghost use Rattle.book.specs.Checks.{named_trade, id_fails, terms_fail};

use book::{Reason, Trade, Values, Verdict};
use layout::Column;
use message_type::MessageType;
use trade_id::TradeId;

// What a message states of its terms: its type, and the two terms that are numbers.
#[derive(Clone, Copy)]
struct Stated {
    message: MessageType,
    settlement: Option<u64>,
    price: Option<u64>,
}

fn number_is(f: Option<u64>, k: u64) -> bool
    ensures { result ≡ number_is f k }
{
    f.is_some_and(|n| n == k)
}

fn price_is(f: Option<u64>, k: u64) -> bool
    ensures { result ≡ price_is f k }
{
    f.is_some_and(|p| trade_id::prices_agree(p, k))
}

// The side of a trade that submits a message of some type.
fn side_of(message: MessageType, t: &Trade) -> &[u8; 4]
    ensures { result.now ≡ side_of message t.now }
{
    if message.buyer_submits() {
        &t.buyer
    } else {
        &t.seller
    }
}

fn read_terms(body: &[u8]) -> Stated
    ensures { result ≡ stated_of body.now }
{
    Stated {
        message: header::message_type(body),
        settlement: layout::number_in(body, layout::SETTLEMENT),
        price: layout::number_in(body, layout::PRICE),
    }
}

// Whether a column holds these bytes, of which there are as many as it is wide.
#[tactic(auto, using(crate::proofs::Columns::column_same))]
fn column_is(body: &[u8], column: Column, bytes: &[u8]) -> bool
    requires { (length bytes.now ≡ column.width) × (1 ≤ column.width) }
    ensures { result ≡ same (bytes_in body.now column) bytes.now }
{
    fields::same_part(body, column.at, bytes, 0, column.width)
}

// Whether a message's terms agree with a trade's, by what it states.
#[tactic(auto, unfolding(book::specs::Trades::agrees), using(crate::proofs::Agreeing::last_fail, crate::proofs::Agreeing::last_pass))]
fn agrees_as(body: &[u8], s: Stated, t: &Trade) -> bool
    requires { s ≡ stated_of body.now }
    ensures { result ≡ agrees body.now t.now }
{
    if !(number_is(s.settlement, t.settlement) & price_is(s.price, t.price)) {
        return false;
    }
    column_is(body, layout::SUBMITTER, side_of(s.message, t))
        & (column_is(body, layout::CONTRA, &t.contra) & column_is(body, layout::CUSIP, &t.cusip))
}

// Whether a message's terms agree with a trade's.
pub fn agrees(body: &[u8], t: &Trade) -> bool
    ensures { result ≡ agrees body.now t.now }
{
    agrees_as(body, read_terms(body), t)
}

// The first trade whose terms agree and whose open par holds a weight, by index, or the number of trades.
pub fn find_holding(body: &[u8], v: &Values, weight: u64) -> usize
    ensures { result ≡ first_trade (λ (t : Trade) (left : ℕ). agrees body.now t && leb weight left) 0 (trades_of v.now) (open_pars (trades_of v.now)) }
{
    let s = read_terms(body);
    let trades = v.opened_trades();
    trades
        .iter()
        .position(|t| agrees_as(body, s, t) & (weight <= t.open_par))
        .unwrap_or(trades.len())
}

// Whether some trade's terms agree.
pub fn some_agrees(body: &[u8], v: &Values) -> bool
    ensures { result ≡ any (agrees body.now) (trades_of v.now) }
{
    let s = read_terms(body);
    v.opened_trades().iter().any(|t| agrees_as(body, s, t))
}

// What a message's new lots weigh.
#[tactic(auto, unfolding(book::specs::Trades::brought_weight, book::specs::Messages::brought, faces::specs::Faces::new_weight))]
pub fn brought_weight(body: &[u8]) -> u64
    ensures { result ≡ brought_weight body.now }
{
    if !header::message_type(body).brings_lots() {
        return 0;
    }
    new_lots::new_weight(body)
}

// Whether a whole ID in special instructions is a trade's.
fn is_named_by(body: &[u8], place: usize, length: usize, t: &Trade) -> bool
    requires { id_in body.now ≡ Whole place length }
    ensures { result ≡ is_named_by body.now (id_in body.now) t.now }
{
    fields::clipped(layout::bytes_in(body, layout::SPECIAL), place, length) == t.name()
}

// The first trade that has a whole ID, by index, or the number of trades.
fn find_named(body: &[u8], v: &Values, place: usize, length: usize) -> usize
    requires { id_in body.now ≡ Whole place length }
    ensures { result ≡ named_trade body.now (trades_of v.now) }
{
    let trades = v.opened_trades();
    trades
        .iter()
        .position(|t| is_named_by(body, place, length, t))
        .unwrap_or(trades.len())
}

// The trade that an ON goes to, by index, or the number of trades.
#[tactic(auto, unfolding(book::specs::Trades::trade_of_on), using(crate::proofs::Searching::broken_on))]
pub fn trade_of_on(body: &[u8], v: &Values) -> usize
    ensures { result ≡ trade_of_on body.now (trades_of v.now) (open_pars (trades_of v.now)) }
{
    match header::trade_id_in(body) {
        TradeId::Whole { place, length } => find_named(body, v, place, length),
        TradeId::Broken => v.opened_trades().len(),
        TradeId::Absent => find_holding(body, v, brought_weight(body)),
    }
}

// 31: a trade ID that is begun but not whole, or names no trade with agreeing terms, or another than a CC's or DK's target; on FSTI, none.
pub fn id_verdict(body: &[u8], v: &Values, target: usize) -> Verdict
    ensures { result ≡ cond (id_fails body.now (trades_of v.now) target (id_in body.now)) (Err (by.Trader 31 told)) (Ok tt) }
{
    let id = header::trade_id_in(body);
    if id == TradeId::Absent && !header::is_stipulated(body) {
        return Ok(());
    }
    let TradeId::Whole { place, length } = id else {
        return Err(Reason::Trader(31, book::TOLD));
    };
    let i = find_named(body, v, place, length);
    let concerned = header::message_type(body).is_on() | (i == target);
    match v.opened_trades().get(i) {
        Some(t) if agrees(body, t) & concerned => Ok(()),
        _ => Err(Reason::Trader(31, book::TOLD)),
    }
}

// 32: without a trade ID, no trade's terms agree with an ON's, or the target's with a CC's or DK's.
#[tactic(auto, using(crate::proofs::Agreeing::agrees_none))]
pub fn terms_fail(body: &[u8], v: &Values, target: usize) -> bool
    ensures { result ≡ terms_fail body.now (trades_of v.now) target (id_in body.now) }
{
    let TradeId::Absent = header::trade_id_in(body) else {
        return false;
    };
    if header::message_type(body).is_on() {
        return !some_agrees(body, v);
    }
    v.opened_trades()
        .get(target)
        .is_none_or(|t| !agrees(body, t))
}
