// What the header of a body says, and each test of it alone: length (10), sequence (11), type (13), version (14), fillers (15), amounts (16), parties (17),
// a CC's replacements and settlement (22, 23), a DK's reason and trade ID (24, 25), an ON's millions (33).
#![tactic(auto)]

ghost use Rattle.std.specs.Prelude.{◌≡◌, cond, eqb, leb};
ghost use Rattle.lists.specs.Lists.{any};
ghost use Rattle.layout.specs.Details.{length_fits};
ghost use Rattle.book.specs.Trades.{trades_of};
ghost use Rattle.book.specs.Messages.{type_of, id_in, is_stipulated};
ghost use Rattle.book.specs.Checks.{not_number, at_most, is_no_sequence, sequence_fails, arrived, version_wrong, blank_in, fillers_fine, is_side, parties_fine, amounts_wrong, replacements_fail, is_business_date, settlement_fails, reason_fails, trade_id_missing, millions_fail};
ghost use Rattle.book.specs.declared.Reason.TheVariants as by;
ghost use Rattle.book.specs.Reasons.{told};
ghost use Rattle.std.specs.Prelude.{Ok, Err};

use book::{Reason, Trade, Values, Verdict};
use layout::Column;
use message_type::MessageType;
use sequence::Inbound;
use trade_id::TradeId;

// The type of a message.
#[tactic(auto, unfolding(book::specs::Messages::type_of))]
pub fn message_type(body: &[u8]) -> MessageType
    ensures { result ≡ type_of body.now }
{
    if layout::column_is(body, layout::MESSAGE_TYPE, b"ON") {
        MessageType::On
    } else if layout::column_is(body, layout::MESSAGE_TYPE, b"CC") {
        MessageType::Cc
    } else if layout::column_is(body, layout::MESSAGE_TYPE, b"DK") {
        MessageType::Dk
    } else if layout::column_is(body, layout::MESSAGE_TYPE, b"CX") {
        MessageType::Cx
    } else {
        MessageType::Other
    }
}

// The trade ID in special instructions. A short body has only a part of that column, or nothing of it.
pub fn trade_id_in(body: &[u8]) -> TradeId
    ensures { result ≡ id_in body.now }
{
    trade_id::find_trade_id(layout::bytes_in(body, layout::SPECIAL))
}

// 10: whether the length is that of a header and 1 to 250 details.
#[tactic(auto, using(crate::proofs::Parts::fits_some))]
pub fn length_fits(body: &[u8]) -> bool
    ensures { result ≡ length_fits body.now }
{
    1 <= layout::pool_count(body)
}

// Whether a field is not digits, or over the most.
fn over(most: u64, f: Option<u64>) -> bool
    ensures { result ≡ not_number (at_most most) f }
{
    !f.is_some_and(|n| n <= most)
}

// 11 of a field: not digits, or a number that the line refuses.
fn is_no_sequence(f: Option<u64>) -> bool
    ensures { result ≡ is_no_sequence f }
{
    f.is_none_or(|n| u64::from(sequence::INBOUND_MAX) < n)
}

// 11: the sequence number is not digits, or 999999.
pub fn sequence_fails(body: &[u8]) -> bool
    ensures { result ≡ sequence_fails body.now }
{
    is_no_sequence(layout::number_in(body, layout::SEQUENCE))
}

// The sequence number of a body, 0 where it is not digits.
#[tactic(auto, using(fields::proofs::Bounds::read_below))]
pub fn arrived(body: &[u8]) -> Inbound
    ensures { result ≡ arrived body.now }
{
    Inbound(layout::number_in(body, layout::SEQUENCE).unwrap_or(0) as u32)
}

// 14: version not 002.
pub fn version_wrong(body: &[u8]) -> bool
    ensures { result ≡ version_wrong body.now }
{
    !layout::column_is(body, layout::VERSION, b"002")
}

fn blank_in(body: &[u8], column: Column) -> bool
    ensures { result ≡ blank_in body.now column }
{
    fields::all_blank(body, column.at, column.width)
}

// 15: blank fillers, and Pos Dup "X" or blank.
pub fn fillers_fine(body: &[u8]) -> bool
    ensures { result ≡ fillers_fine body.now }
{
    (blank_in(body, layout::FILLER_ONE)
        & (blank_in(body, layout::FILLER_TWO) & blank_in(body, layout::FILLER_THREE)))
        & (layout::column_is(body, layout::POS_DUP, b"X")
            | layout::column_is(body, layout::POS_DUP, b" "))
}

// Whether the contra is FSTI.
pub fn is_stipulated(body: &[u8]) -> bool
    ensures { result ≡ is_stipulated body.now }
{
    layout::column_is(body, layout::CONTRA, b"FSTI")
}

// Whether the submitter is the seller or the buyer of a trade.
fn is_side(t: &Trade, body: &[u8]) -> bool
    ensures { result ≡ is_side body.now t.now }
{
    layout::column_is(body, layout::SUBMITTER, &t.seller)
        | layout::column_is(body, layout::SUBMITTER, &t.buyer)
}

// Whether the submitter is a side of some trade.
fn some_side(v: &Values, body: &[u8]) -> bool
    ensures { result ≡ any (is_side body.now) (trades_of v.now) }
{
    v.opened_trades().iter().any(|t| is_side(t, body))
}

// 17: the book's subscriber and connection, a submitter that is a side of some trade, and contra FTBA or FSTI.
pub fn parties_fine(v: &Values, body: &[u8]) -> bool
    ensures { result ≡ parties_fine v.now body.now }
{
    let contra = layout::column_is(body, layout::CONTRA, b"FTBA") | is_stipulated(body);
    layout::column_is(body, layout::SUBSCRIBER, &v.lent.subscriber)
        & (layout::column_is(body, layout::CONNECTION, &v.connection.id)
            & (some_side(v, body) & contra))
}

// Whether a field is not digits, or 0.
fn is_nothing(f: Option<u64>) -> bool
    ensures { result ≡ not_number (leb 1) f }
{
    !f.is_some_and(|n| 1 <= n)
}

// Whether a field is not digits, or another number.
fn is_unlike(k: u64, f: Option<u64>) -> bool
    ensures { result ≡ not_number (eqb k) f }
{
    !f.is_some_and(|n| k == n)
}

// 16: par or price 0, or GDMM over the ceiling.
pub fn amounts_fail(ceiling: u64, body: &[u8]) -> bool
    ensures { result ≡ amounts_wrong ceiling body.now }
{
    is_nothing(layout::number_in(body, layout::PAR))
        | (is_nothing(layout::number_in(body, layout::PRICE))
            | over(ceiling, layout::number_in(body, layout::GDMM)))
}

// 22: the number of pools is not the number of replacement pools.
pub fn replacements_fail(body: &[u8]) -> bool
    ensures { result ≡ replacements_fail body.now }
{
    let count = lots::replacement_count(body) as u64;
    is_unlike(count, layout::number_in(body, layout::NUMBER_OF_POOLS))
}

// 23: settlement is no business date.
pub fn settlement_fails(v: &Values, body: &[u8]) -> bool
    ensures { result ≡ settlement_fails v.now body.now }
{
    let settlement = layout::number_in(body, layout::SETTLEMENT);
    !settlement.is_some_and(|n| calendar::business_date(n, v.opened_holidays()))
}

// 24: a DK's reason is 0 or not digits.
pub fn reason_fails(body: &[u8]) -> bool
    ensures { result ≡ reason_fails body.now }
{
    is_nothing(layout::number_in(body, layout::REASON))
}

// 25: a stipulated DK without a whole trade ID.
pub fn id_verdict(body: &[u8]) -> Verdict
    ensures { result ≡ cond (trade_id_missing body.now) (Err (by.Sender 25 told)) (Ok tt) }
{
    if !is_stipulated(body) {
        return Ok(());
    }
    let TradeId::Whole { .. } = trade_id_in(body) else {
        return Err(Reason::Sender(25, book::TOLD));
    };
    Ok(())
}

// 33: GDMM is not the sum of the good millions.
pub fn millions_fail(body: &[u8]) -> bool
    ensures { result ≡ millions_fail body.now }
{
    let sum = lots::good_millions(body);
    is_unlike(sum, layout::number_in(body, layout::GDMM))
}
