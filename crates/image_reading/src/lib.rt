// A book read back from its words, where they are the image of one.
#![tactic(auto)]

ghost use Rattle.std.specs.Prelude.{◌≡◌, true, ◌<◌, ◌≤◌, min, length, slice_index, bit_or};
ghost use Rattle.std.specs.List.{fold, range_with_len};
ghost use Rattle.lists.specs.Lists.{all};
ghost use Rattle.book.specs.Opening.{trades_max, holidays_max};
ghost use Rattle.image.specs.Words.{holiday_count};
ghost use Rattle.image.specs.Images.{
  trade_words,
  rest_words,
  book_words,
  row_at,
  row_in,
  count_in,
  rows_of,
  rest_of,
  holiday_in,
  holidays_in,
  is_byte,
  is_number,
  trade_fits,
  received_fits,
  lent_fits,
  line_fits,
  is_lent,
  is_image,
  trade_in,
  received_in,
  line_in,
  values_from,
  trades_in,
  book_in,
};
ghost use Rattle.image_reading.specs.Reading.{read_book, read_lent};

use book::{Book, Connection, Lent, Limits, Trade, Values};
use sequence::{Inbound, Line, Outbound};

// One more than the highest byte, and than the highest number of 32 bits.
const BYTE_END: u64 = 256;

const NUMBER_END: u64 = 4294967296;

// The words of the i-th trade.
#[tactic(auto, unfolding(lists::specs::Lists::part))]
fn row_at(words: &[u64], i: usize) -> &[u64]
    requires { (length words.now ≡ book_words) × (i < trades_max) }
    ensures row { result.now ≡ row_at words.now i }
    ensures long { length result.now ≡ trade_words }
{
    let at = i * image::TRADE_WORDS;
    &words[at..at + image::TRADE_WORDS]
}

// The words after the trades.
#[tactic(auto, unfolding(image::specs::Images::rest_of, lists::specs::Lists::part))]
fn rest_of(words: &[u64]) -> &[u64]
    requires { length words.now ≡ book_words }
    ensures rest { result.now ≡ rest_of words.now }
    ensures long { length result.now ≡ rest_words }
{
    &words[image::REST..image::BOOK_WORDS]
}

// Words joined bit by bit: the join is below a power of two exactly where each of them is. So many words ask for one test.
fn joined(words: &[u64]) -> u64
    ensures { result ≡ fold bit_or 0 words.now }
{
    words.iter().fold(0, |bits, word| bits | word)
}

// Whether words are all bytes.
#[tactic(auto, using(crate::proofs::Bits::bytes_joined))]
fn all_bytes(words: &[u64]) -> bool
    ensures { result ≡ all is_byte words.now }
{
    joined(words) < BYTE_END
}

// Words that are bytes, as bytes.
#[tactic(auto, using(crate::proofs::Each::each_below, std::proofs::lemmas::Grind::same_number_lists))]
fn bytes_of<const N: usize>(words: &[u64]) -> [u8; N]
    requires { (length words.now ≡ N) × (all is_byte words.now ≡ true) }
    ensures { result ≡ words.now }
{
    let mut bytes = [0; N];
    for (i, byte) in bytes.iter_mut().enumerate() {
        *byte = words[i] as u8;
    }
    bytes
}

// Whether a trade's words are those of a trade.
#[tactic(auto, unfolding(image::specs::Images::trade_fits, lists::specs::Lists::part))]
fn trade_fits(row: &[u64]) -> bool
    requires { length row.now ≡ trade_words }
    ensures { result ≡ trade_fits row.now }
{
    all_bytes(&row[image::ID..image::LENGTH]) && all_bytes(&row[image::SELLER..image::SETTLEMENT])
}

// The trade of a trade's words.
#[tactic(auto, using(image::proofs::Told::id_bytes, crate::proofs::Fits::seller_bytes, crate::proofs::Fits::buyer_bytes, crate::proofs::Fits::contra_bytes, crate::proofs::Fits::cusip_bytes), unfolding(image::specs::Images::trade_in, lists::specs::Lists::part))]
fn read_trade(row: &[u64]) -> Trade
    requires { (length row.now ≡ trade_words) × (trade_fits row.now ≡ true) }
    ensures { result ≡ trade_in row.now }
{
    let id = bytes_of(&row[image::ID..image::LENGTH]);
    let seller = bytes_of(&row[image::SELLER..image::BUYER]);
    let buyer = bytes_of(&row[image::BUYER..image::CONTRA]);
    let contra = bytes_of(&row[image::CONTRA..image::CUSIP]);
    let cusip = bytes_of(&row[image::CUSIP..image::SETTLEMENT]);
    Trade {
        id,
        length: row[image::LENGTH] as usize,
        seller,
        buyer,
        contra,
        cusip,
        settlement: row[image::SETTLEMENT],
        price: row[image::PRICE],
        par: row[image::PAR],
        open_par: row[image::OPEN_PAR],
    }
}

// How many count, of so many that a book has room for.
fn counted(count: u64, most: usize) -> usize
    ensures { result ≡ min count most }
{
    count.min(most as u64) as usize
}

// Whether the words of the first n trades are those of trades.
fn rows_fit(words: &[u64], n: usize) -> bool
    requires { (length words.now ≡ book_words) × (n ≤ trades_max) }
    ensures { result ≡ all (λ i. trade_fits (row_at words.now i)) (range_with_len 0 n) }
{
    (0..n).all(|i| trade_fits(row_at(words, i)))
}

// Whether the words of the trades that count are those of trades.
#[tactic(auto, using(crate::proofs::Tables::rows_counted))]
fn trades_fit(words: &[u64]) -> bool
    requires { length words.now ≡ book_words }
    ensures { result ≡ all trade_fits (rows_of words.now) }
{
    let count = rest_of(words)[image::TRADE_COUNT];
    rows_fit(words, counted(count, book::TRADES_MAX))
}

// The i-th trade: one of zeros past those that count.
#[tactic(auto, using(image::proofs::Told::lent_length, crate::proofs::Tables::row_fits, crate::proofs::Tables::row_counts, crate::proofs::Tables::row_blank))]
fn trade_at(words: &[u64], i: usize) -> Trade
    requires { (is_lent words.now ≡ true) × (i < trades_max) }
    ensures { result ≡ trade_in (row_in words.now (count_in words.now) i) }
{
    let count = rest_of(words)[image::TRADE_COUNT];
    if i as u64 >= count {
        return image::no_trade();
    }
    read_trade(row_at(words, i))
}

// The trades of a book's words.
#[tactic(auto, using(crate::proofs::Tables::trades_made))]
fn read_trades(words: &[u64]) -> [Trade; book::TRADES_MAX]
    requires { is_lent words.now ≡ true }
    ensures { result ≡ trades_in words.now }
{
    let mut trades = [image::no_trade(); book::TRADES_MAX];
    for (i, t) in trades.iter_mut().enumerate() {
        *t = trade_at(words, i);
    }
    trades
}

// Whether flag and number tell what was received.
fn received_fits(flag: u64, number: u64) -> bool
    ensures { result ≡ received_fits flag number }
{
    (flag == 0 && number == 0) || (flag == 1 && number < NUMBER_END)
}

// What was received, as flag and number tell it.
fn read_received(flag: u64, number: u64) -> Option<Inbound>
    requires { received_fits flag number ≡ true }
    ensures { result ≡ received_in flag number }
{
    if flag == 0 {
        return None;
    }
    Some(Inbound(number as u32))
}

// Whether the holidays that count are numbers of 32 bits.
fn holidays_fit(rest: &[u64]) -> bool
    requires { length rest.now ≡ rest_words }
    ensures { result ≡ all is_number (holidays_in rest.now) }
{
    let days = counted(rest[image::HOLIDAY_COUNT], book::HOLIDAYS_MAX);
    joined(&rest[image::HOLIDAYS..image::HOLIDAYS + days]) < NUMBER_END
}

// The i-th holiday: 0 past those that count.
#[tactic(auto, using(crate::proofs::Tables::holiday_number, crate::proofs::Tables::holiday_counts, crate::proofs::Tables::holiday_none))]
fn holiday_at(rest: &[u64], i: usize) -> u32
    requires { (length rest.now ≡ rest_words) × (all is_number (holidays_in rest.now) ≡ true) × (i < holidays_max) }
    ensures { result ≡ holiday_in rest.now (slice_index rest.now holiday_count) i }
{
    if i as u64 >= rest[image::HOLIDAY_COUNT] {
        return 0;
    }
    rest[image::HOLIDAYS + i] as u32
}

// The holidays of the words after the trades.
#[tactic(auto, using(crate::proofs::Tables::holidays_made))]
fn read_holidays(rest: &[u64]) -> [u32; book::HOLIDAYS_MAX]
    requires { (length rest.now ≡ rest_words) × (all is_number (holidays_in rest.now) ≡ true) }
    ensures { result ≡ holidays_in rest.now }
{
    let mut holidays = [0; book::HOLIDAYS_MAX];
    for (i, day) in holidays.iter_mut().enumerate() {
        *day = holiday_at(rest, i);
    }
    holidays
}

// Whether the words after the trades are such as opening takes.
#[tactic(auto, unfolding(image::specs::Images::lent_fits, lists::specs::Lists::part))]
fn lent_fits(rest: &[u64]) -> bool
    requires { length rest.now ≡ rest_words }
    ensures { result ≡ lent_fits rest.now }
{
    holidays_fit(rest)
        && all_bytes(&rest[image::SUBSCRIBER..image::CEILING])
        && rest[image::OUTBOUND] < NUMBER_END
}

// Whether the words after the trades have a line.
#[tactic(auto, unfolding(image::specs::Images::line_fits))]
fn line_fits(rest: &[u64]) -> bool
    requires { length rest.now ≡ rest_words }
    ensures { result ≡ line_fits rest.now }
{
    received_fits(rest[image::RECEIVED], rest[image::NUMBER]) && rest[image::EXPECTED] < NUMBER_END
}

// The line of the words after the trades.
#[tactic(auto, using(image::proofs::Told::rest_received, crate::proofs::Fits::expected_fits))]
fn read_line(rest: &[u64]) -> Line
    requires { (length rest.now ≡ rest_words) × (line_fits rest.now ≡ true) }
    ensures { result ≡ line_in rest.now }
{
    let received = read_received(rest[image::RECEIVED], rest[image::NUMBER]);
    Line {
        received,
        expected: Inbound(rest[image::EXPECTED] as u32),
    }
}

// The values of some trades, of a line and of the words after the trades.
#[tactic(auto, using(image::proofs::Told::rest_dates, crate::proofs::Fits::subscriber_bytes, crate::proofs::Fits::connection_bytes, crate::proofs::Fits::outbound_fits), unfolding(image::specs::Images::values_from, lists::specs::Lists::part))]
fn read_rest(trades: [Trade; book::TRADES_MAX], rest: &[u64], line: Line) -> Values
    requires { (length rest.now ≡ rest_words) × (lent_fits rest.now ≡ true) }
    ensures { result ≡ values_from trades rest.now line }
{
    let holidays = read_holidays(rest);
    let subscriber = bytes_of(&rest[image::SUBSCRIBER..image::CONNECTION]);
    let id = bytes_of(&rest[image::CONNECTION..image::CEILING]);
    Values {
        trades,
        lent: Lent {
            trade_count: rest[image::TRADE_COUNT] as usize,
            holidays,
            holiday_count: rest[image::HOLIDAY_COUNT] as usize,
            subscriber,
            limits: Limits {
                ceiling: rest[image::CEILING],
                variance: rest[image::VARIANCE],
                pools_a_million: rest[image::POOLS_A_MILLION],
                least: rest[image::LEAST],
            },
        },
        last_message_id: rest[image::LAST_MESSAGE_ID],
        connection: Connection {
            id,
            line,
            outbound: Outbound(rest[image::OUTBOUND] as u32),
        },
    }
}

// Whether words say what opening lends.
#[tactic(auto, unfolding(image::specs::Images::is_lent))]
fn is_lent(words: &[u64]) -> bool
    ensures { result ≡ is_lent words.now }
{
    words.len() == image::BOOK_WORDS && trades_fit(words) && lent_fits(rest_of(words))
}

// Whether words are the image of a book.
#[tactic(auto, using(image::proofs::Told::lent_length), unfolding(image::specs::Images::is_image))]
fn is_image(words: &[u64]) -> bool
    ensures { result ≡ is_image words.now }
{
    is_lent(words) && line_fits(rest_of(words))
}

// The values that words say, with a line.
#[tactic(auto, using(image::proofs::Told::lent_length, image::proofs::Told::lent_rest))]
fn values_in(words: &[u64], line: Line) -> Values
    requires { is_lent words.now ≡ true }
    ensures { result ≡ values_from (trades_in words.now) (rest_of words.now) line }
{
    let trades = read_trades(words);
    read_rest(trades, rest_of(words), line)
}

// The book of an image.
#[tactic(auto, using(image::proofs::Told::lent_length, image::proofs::Told::image_lent, image::proofs::Told::image_line), unfolding(image::specs::Images::book_in))]
fn book_in(words: &[u64]) -> Book
    requires { is_image words.now ≡ true }
    ensures { result ≡ book_in words.now }
{
    let rest = rest_of(words);
    let line = read_line(rest);
    Book {
        values: values_in(words, line),
        live: rest[image::LIVE] as usize,
    }
}

// The book that words say, where they are the image of one.
#[tactic(auto, unfolding(crate::specs::Reading::read_book))]
pub fn read_book(words: &[u64]) -> Option<Book>
    ensures { result ≡ read_book words.now }
{
    if is_image(words) {
        Some(book_in(words))
    } else {
        None
    }
}

// The values that words lend to opening, whatever line and live pools they say, where they lend some.
#[tactic(auto, unfolding(crate::specs::Reading::read_lent, image::specs::Images::values_in))]
pub fn read_lent(words: &[u64]) -> Option<Values>
    ensures { result ≡ read_lent words.now }
{
    if is_lent(words) {
        Some(values_in(words, Line::start()))
    } else {
        None
    }
}
