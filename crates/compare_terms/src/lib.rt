// Lends the header's columns, fields of digits, dates, trade IDs and prices to Rust and C: each exported function but the last writes its numbers at the head of a lent slice.
#![tactic(auto)]

ghost use Rattle.std.specs.Prelude.{◌≡◌, get_or};
ghost use Rattle.lists.specs.Lists.{pasted};
ghost use Rattle.fields.specs.Fields.{read_number};
ghost use Rattle.layout.specs.Columns.{column};
ghost use Rattle.trade_id.specs.SpecialInstructions.{trade_id_of};
ghost use Rattle.trade_id.specs.Prices.{prices_agree};
ghost use Rattle.compare_terms.specs.Numbers.{column_of, column_numbers, field_numbers, date_numbers, trade_id_numbers};

use layout::Column;
use trade_id::TradeId;

// A column by its place among others, or an empty one past the last.
fn column_at(columns: &[Column], i: usize) -> Column
    ensures { result ≡ get_or columns.now i (column 0 0) }
{
    columns
        .get(i)
        .copied()
        .unwrap_or(Column { at: 0, width: 0 })
}

// A column of the header by its place in their order, or an empty one past the last.
#[tactic(auto, unfolding(crate::specs::Numbers::column_of))]
fn column_of(i: usize) -> Column
    ensures { result ≡ column_of i }
{
    column_at(&layout::header_columns(), i)
}

// Writes the first byte of a column of the header and its width.
#[unsafe(no_mangle)]
pub extern "C" fn rhoikandra_column(i: usize, out: &mut [u64])
    ensures { out.new ≡ pasted out.old 0 (column_numbers (column_of i)) }
{
    let column = column_of(i);
    output::put(out, 0, &[column.at as u64, column.width as u64]);
}

// Whether a field is digits, and their number.
#[tactic(auto, unfolding(exports_numbers::specs::Bit::bit))]
fn field_numbers(f: Option<u64>) -> [u64; 2]
    ensures { result ≡ field_numbers f }
{
    [u64::from(f.is_some()), f.unwrap_or(0)]
}

// Writes whether the width bytes from at are digits, and their number.
#[unsafe(no_mangle)]
pub extern "C" fn rhoikandra_number(s: &[u8], at: usize, width: usize, out: &mut [u64])
    ensures { out.new ≡ pasted out.old 0 (field_numbers (read_number s.now at width)) }
{
    let field = fields::read_number(s, at, width);
    output::put(out, 0, &field_numbers(field));
}

// Writes whether a number, read mmddyyyy, is a date, and whether it is a business date, with these holidays.
#[tactic(auto, unfolding(crate::specs::Numbers::date_numbers, exports_numbers::specs::Bit::bit))]
#[unsafe(no_mangle)]
pub extern "C" fn rhoikandra_date(n: u64, holidays: &[u32], out: &mut [u64])
    ensures { out.new ≡ pasted out.old 0 (date_numbers n holidays.now) }
{
    let date = u64::from(calendar::is_date(n));
    let business = u64::from(calendar::business_date(n, holidays));
    output::put(out, 0, &[date, business]);
}

fn trade_id_numbers(t: TradeId) -> [u64; 3]
    ensures { result ≡ trade_id_numbers t }
{
    match t {
        TradeId::Whole { place, length } => [0, place as u64, length as u64],
        TradeId::Broken => [1, 0, 0],
        TradeId::Absent => [2, 0, 0],
    }
}

// Writes what special instructions hold, and where a whole trade ID stands.
#[unsafe(no_mangle)]
pub extern "C" fn rhoikandra_trade_id(special: &[u8], out: &mut [u64])
    ensures { out.new ≡ pasted out.old 0 (trade_id_numbers (trade_id_of special.now)) }
{
    let found = trade_id::find_trade_id(special);
    output::put(out, 0, &trade_id_numbers(found));
}

// Whether two prices of nine implied decimals agree.
#[unsafe(no_mangle)]
pub extern "C" fn rhoikandra_prices_agree(a: u64, b: u64) -> bool
    ensures { result ≡ prices_agree a b }
{
    trade_id::prices_agree(a, b)
}
