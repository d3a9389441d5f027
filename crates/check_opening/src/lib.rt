// Decides number 41 on what opening lends, and makes the book of an accepted opening.
#![tactic(auto)]

ghost use Rattle.std.specs.Prelude.{◌≡◌, map, ◌||◌, ◌≤◌, length, take, eqb};
ghost use Rattle.lists.specs.Lists.{any, all, same};
ghost use Rattle.layout.specs.Columns as columns;
ghost use Rattle.fields.specs.Fields.{all_visible};
ghost use Rattle.calendar.specs.Calendar.{is_date};
ghost use Rattle.book.specs.declared.Trade.{Trade};
ghost use Rattle.trade_id.specs.SpecialInstructions.{id_length_max};
ghost use Rattle.book.specs.Messages.{ftba, fsti};
ghost use Rattle.book.specs.Trades.{trade_name};
ghost use Rattle.book.specs.Opening.{
  trades_max,
  eleven_digits_max,
  price_max,
  limits_fine,
  account_fine,
  id_fine,
  trade_fine,
  names_repeat,
  values_fine,
  at_par,
  opened,
};
ghost use Rattle.check_opening.specs.Marks.{mark_of};

use book::{Book, Connection, Limits, Trade, Values};
use sequence::Line;

// Twelve digits: a price with nine decimals.
pub const PRICE_MAX: u64 = 999999999999;

pub const CEILING_MAX: u64 = 9999;

// Cents a million.
pub const VARIANCE_MAX: u64 = 1000000;

pub const POOLS_A_MILLION_MAX: u64 = 250;

pub const CUSIP_LENGTH: usize = 9;

// Over the ten digits, and small enough that the mark of 16 bytes fits.
const MARK_BASE: u64 = 13;

// 41: GDMM ceiling, variance, pools a million and least face in their ranges.
fn limits_fine(l: &Limits) -> bool
    ensures { result ≡ limits_fine l.now }
{
    l.ceiling <= CEILING_MAX
        && l.variance <= VARIANCE_MAX
        && (1..=POOLS_A_MILLION_MAX).contains(&l.pools_a_million)
        && (1..=book::FACE_MAX).contains(&l.least)
}

// 41: an account, a subscriber or a connection of codes 33 to 126.
pub fn account_fine(account: &[u8; 4]) -> bool
    ensures { result ≡ account_fine account.now }
{
    fields::all_visible(account, 0, account.len())
}

// 41: contra FTBA or FSTI.
pub fn contra_fine(contra: &[u8; 4]) -> bool
    ensures { result ≡ (same contra.now ftba || same contra.now fsti) }
{
    contra == b"FTBA" || contra == b"FSTI"
}

// 41: a CUSIP of codes 33 to 126.
pub fn cusip_fine(cusip: &[u8; 9]) -> bool
    ensures { result ≡ all_visible cusip.now 0 (columns.cusip).width }
{
    fields::all_visible(cusip, 0, cusip.len())
}

// Whether a byte stands in a slice.
fn holds(s: &[u8], byte: u8) -> bool
    ensures { result ≡ any (eqb byte) s.now }
{
    s.iter().any(|b| byte == *b)
}

// 41: an ID of 1 to 16 characters of codes 33 to 126, none of them "=".
pub fn id_fine(t: &Trade) -> bool
    ensures { result ≡ id_fine t.now }
{
    (1..=book::ID_MAX).contains(&t.length)
        && fields::all_visible(&t.id, 0, t.length)
        && !holds(t.name(), b'=')
}

// 41: all that is asked of one trade by itself.
fn trade_fine(t: &Trade, holidays: &[u32]) -> bool
    ensures { result ≡ trade_fine holidays.now t.now }
{
    id_fine(t)
        && account_fine(&t.seller)
        && account_fine(&t.buyer)
        && t.seller != t.buyer
        && contra_fine(&t.contra)
        && cusip_fine(&t.cusip)
        && calendar::business_date(t.settlement, holidays)
        && (1..=PRICE_MAX).contains(&t.price)
        && (1..=book::ELEVEN_DIGITS_MAX).contains(&t.par)
}

// Whether two trades have equal IDs.
fn same_name(a: &Trade, b: &Trade) -> bool
    ensures { result ≡ same (trade_name a.now) (trade_name b.now) }
{
    a.name() == b.name()
}

// Whether one of some trades has the ID of this one.
pub fn named(trades: &[Trade], t: &Trade) -> bool
    ensures { result ≡ any (λ (other : Trade). same (trade_name t.now) (trade_name other)) trades.now }
{
    trades.iter().any(|other| same_name(t, other))
}

// The mark of an ID: its bytes as the digits of one number.
#[tactic(auto, unfolding(crate::specs::Marks::mark_of))]
fn mark(id: &[u8]) -> u64
    requires { length id.now ≤ id_length_max }
    ensures { result ≡ mark_of id.now }
{
    let mut m = 0;
    for b in id {
        m = m * MARK_BASE + u64::from(*b);
    }
    m
}

// The marks of some trades, each in its trade's place.
fn marks_of(trades: &[Trade]) -> [u64; book::TRADES_MAX]
    requires { length trades.now ≤ trades_max }
    ensures { take (length trades.now) result ≡ map mark_of (map trade_name trades.now) }
{
    let mut marks = [0; book::TRADES_MAX];
    for (i, t) in trades.iter().enumerate() {
        marks[i] = mark(t.name());
    }
    marks
}

// Whether a mark is one of some, without a branch.
fn is_marked(marks: &[u64], mark: u64) -> bool
    ensures { result ≡ any (eqb mark) marks.now }
{
    let mut found = false;
    for m in marks {
        found |= mark == *m;
    }
    found
}

// 41: equal IDs. They have equal marks, so only IDs whose marks are equal are compared byte by byte.
fn names_repeat(trades: &[Trade]) -> bool
    requires { length trades.now ≤ trades_max }
    ensures { result ≡ names_repeat (map trade_name trades.now) }
{
    let marks = marks_of(trades);
    for (i, t) in trades.iter().enumerate() {
        if is_marked(&marks[i + 1..trades.len()], marks[i]) && named(&trades[i + 1..], t) {
            return true;
        }
    }
    false
}

// 41: holidays that are dates.
fn all_dates(holidays: &[u32]) -> bool
    ensures { result ≡ all is_date holidays.now }
{
    holidays
        .iter()
        .all(|day| calendar::is_date(u64::from(*day)))
}

fn trades_fine(trades: &[Trade], holidays: &[u32]) -> bool
    ensures { result ≡ all (trade_fine holidays.now) trades.now }
{
    trades.iter().all(|t| trade_fine(t, holidays))
}

// Whether opening's values pass 41. The table's length is not among them.
#[tactic(auto, unfolding(book::specs::Opening::values_fine))]
pub fn values_fine(v: &Values) -> bool
    ensures { result ≡ values_fine v.now }
{
    let trades = v.opened_trades();
    let holidays = v.opened_holidays();
    v.lent.trade_count <= book::TRADES_MAX
        && v.lent.holiday_count <= book::HOLIDAYS_MAX
        && all_dates(holidays)
        && account_fine(&v.lent.subscriber)
        && account_fine(&v.connection.id)
        && limits_fine(&v.lent.limits)
        && v.last_message_id <= book::ELEVEN_DIGITS_MAX
        && v.connection.outbound.0 <= sequence::OUTBOUND_MAX
        && trades_fine(trades, holidays)
        && !names_repeat(trades)
}

// A trade as it is opened: open par starts at par.
fn at_par(t: Trade) -> Trade
    ensures { result ≡ at_par t }
{
    Trade {
        open_par: t.par,
        ..t
    }
}

// The book that an accepted opening leaves.
#[tactic(auto, unfolding(book::specs::Opening::opened))]
pub fn opened_book(v: Values) -> Book
    ensures { result ≡ opened v }
{
    let mut values = v;
    for t in values.trades.iter_mut() {
        *t = at_par(*t);
    }
    values.connection.line = Line::start();
    Book { values, live: 0 }
}
