// Tells which rule of opening (01, number 41) is broken first, and which trade or holiday it is about.
#![tactic(auto)]

ghost use Rattle.std.specs.Prelude.{◌≡◌, map};
ghost use Rattle.book.specs.Trades.{trade_name};
ghost use Rattle.fault.specs.Rules.{each};
ghost use Rattle.fault.specs.Faults.{limits_fault, trade_fault, names_fault, date_fault, values_fault, opening_fault};

use book::{Limits, Trade, Values};
use fault::Fault;

// 107 to 110: GDMM ceiling, variance, pools a million and least face, each in its range.
#[tactic(auto, unfolding(fault::specs::Faults::limits_fault))]
fn limits_fault(l: &Limits) -> Option<Fault>
    ensures { result ≡ limits_fault l.now }
{
    let pools = (1..=check_opening::POOLS_A_MILLION_MAX).contains(&l.pools_a_million);
    let least = (1..=book::FACE_MAX).contains(&l.least);
    fault::broken(
        0,
        &[
            (107, l.ceiling <= check_opening::CEILING_MAX),
            (108, l.variance <= check_opening::VARIANCE_MAX),
            (109, pools),
            (110, least),
        ],
    )
}

// 121 to 129: the first rule that one trade by itself breaks.
#[tactic(auto, unfolding(fault::specs::Faults::trade_fault))]
fn trade_fault(t: &Trade, holidays: &[u32], place: u64) -> Option<Fault>
    ensures { result ≡ trade_fault holidays.now place t.now }
{
    let date = calendar::business_date(t.settlement, holidays);
    let price = (1..=check_opening::PRICE_MAX).contains(&t.price);
    let par = (1..=book::ELEVEN_DIGITS_MAX).contains(&t.par);
    fault::broken(
        place,
        &[
            (121, check_opening::id_fine(t)),
            (122, check_opening::account_fine(&t.seller)),
            (123, check_opening::account_fine(&t.buyer)),
            (124, t.seller != t.buyer),
            (125, check_opening::contra_fine(&t.contra)),
            (126, check_opening::cusip_fine(&t.cusip)),
            (127, date),
            (128, price),
            (129, par),
        ],
    )
}

// 104: the first holiday that is no date.
fn dates_fault(holidays: &[u32]) -> Option<Fault>
    ensures { result ≡ each date_fault 0 holidays.now }
{
    fault::first_of(holidays, 0, |place, day, _| {
        fault::tested(104, place, calendar::is_date(u64::from(*day)))
    })
}

// 121 to 129: the first trade that breaks one of them.
fn trades_fault(trades: &[Trade], holidays: &[u32]) -> Option<Fault>
    ensures { result ≡ each (trade_fault holidays.now) 0 trades.now }
{
    fault::first_of(trades, 0, |place, t, _| trade_fault(t, holidays, place))
}

// 130: the first ID that a later trade has too.
fn names_fault(trades: &[Trade]) -> Option<Fault>
    ensures { result ≡ names_fault 0 (map trade_name trades.now) }
{
    fault::first_of(trades, 0, |place, t, later| {
        fault::tested(130, place, !check_opening::named(later, t))
    })
}

// 102 to 130: which rule of 41 the values break first. The table's length is not among them. None is asked after one that is broken.
pub fn values_fault(v: &Values) -> Option<Fault>
    ensures { result ≡ values_fault v.now }
{
    let lent = &v.lent;
    let trades = v.opened_trades();
    let holidays = v.opened_holidays();
    fault::tested(102, 0, lent.trade_count <= book::TRADES_MAX)
        .or_else(|| fault::tested(103, 0, lent.holiday_count <= book::HOLIDAYS_MAX))
        .or_else(|| dates_fault(holidays))
        .or_else(|| fault::tested(105, 0, check_opening::account_fine(&lent.subscriber)))
        .or_else(|| fault::tested(106, 0, check_opening::account_fine(&v.connection.id)))
        .or_else(|| limits_fault(&lent.limits))
        .or_else(|| fault::tested(111, 0, v.last_message_id <= book::ELEVEN_DIGITS_MAX))
        .or_else(|| fault::tested(112, 0, v.connection.outbound.0 <= sequence::OUTBOUND_MAX))
        .or_else(|| trades_fault(trades, holidays))
        .or_else(|| names_fault(trades))
}

// 102 to 141: which rule of 41 is broken first, over a table of so many records.
#[tactic(auto, unfolding(fault::specs::Faults::opening_fault))]
pub fn opening_fault(v: &Values, records: usize) -> Option<Fault>
    ensures { result ≡ opening_fault v.now records }
{
    values_fault(v).or_else(|| fault::tested(141, 0, records <= book::RECORDS_MAX))
}
