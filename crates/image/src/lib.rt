// A book as words, so that a caller can keep it: the places of the words, and a book written into a lent slice.
#![tactic(auto)]

ghost use Rattle.std.specs.Prelude.{◌≡◌, ◌≤◌, length, flat_map};
ghost use Rattle.lists.specs.Lists.{pasted};
ghost use Rattle.image.specs.Images.{trades_words, trade_image, flag_of, last_of, rest_image, image_of, blank};

use book::{Book, Trade};
use sequence::Inbound;

// Words of a book: 64 trades and the rest.
pub const BOOK_WORDS: usize = 2740;

pub const TRADE_WORDS: usize = 42;

// Where a trade's words stand among its own.
pub const ID: usize = 0;

pub const LENGTH: usize = 16;

pub const SELLER: usize = 17;

pub const BUYER: usize = 21;

pub const CONTRA: usize = 25;

pub const CUSIP: usize = 29;

pub const SETTLEMENT: usize = 38;

pub const PRICE: usize = 39;

pub const PAR: usize = 40;

pub const OPEN_PAR: usize = 41;

// Where the rest begins, and where its words stand among its own.
pub const REST: usize = 2688;

pub const REST_WORDS: usize = 52;

pub const TRADE_COUNT: usize = 0;

pub const HOLIDAYS: usize = 1;

pub const HOLIDAY_COUNT: usize = 33;

pub const SUBSCRIBER: usize = 34;

pub const CONNECTION: usize = 38;

pub const CEILING: usize = 42;

pub const VARIANCE: usize = 43;

pub const POOLS_A_MILLION: usize = 44;

pub const LEAST: usize = 45;

pub const LAST_MESSAGE_ID: usize = 46;

pub const OUTBOUND: usize = 47;

pub const RECEIVED: usize = 48;

pub const NUMBER: usize = 49;

pub const EXPECTED: usize = 50;

pub const LIVE: usize = 51;

// The words of a trade's accounts and CUSIP, and those of subscriber and connection.
pub const NAMES_WORDS: usize = SETTLEMENT - SELLER;

pub const ACCOUNTS_WORDS: usize = CEILING - SUBSCRIBER;

// A trade of zeros.
pub fn no_trade() -> Trade
    ensures { result ≡ blank }
{
    Trade {
        id: [0; book::ID_MAX],
        length: 0,
        seller: [0; 4],
        buyer: [0; 4],
        contra: [0; 4],
        cusip: [0; 9],
        settlement: 0,
        price: 0,
        par: 0,
        open_par: 0,
    }
}

// A word for each byte.
fn words_of<const N: usize>(bytes: [u8; N]) -> [u64; N]
    ensures { result ≡ bytes.entry }
{
    bytes.map(u64::from)
}

// A word for each holiday.
fn date_words(dates: [u32; book::HOLIDAYS_MAX]) -> [u64; book::HOLIDAYS_MAX]
    ensures { result ≡ dates }
{
    dates.map(u64::from)
}

// The words of a trade.
fn trade_words(t: &Trade) -> [u64; TRADE_WORDS]
    ensures { result ≡ trade_image t.now }
{
    let numbers = [t.settlement, t.price, t.par, t.open_par];
    let mut row = [0; TRADE_WORDS];
    output::put(&mut row, ID, &words_of(t.id));
    output::put(&mut row, LENGTH, &[t.length as u64]);
    output::put(&mut row, SELLER, &words_of(t.seller));
    output::put(&mut row, BUYER, &words_of(t.buyer));
    output::put(&mut row, CONTRA, &words_of(t.contra));
    output::put(&mut row, CUSIP, &words_of(t.cusip));
    output::put(&mut row, SETTLEMENT, &numbers);
    row
}

// Writes the words of the trades from the front.
fn put_trades(words: &mut [u64], trades: &[Trade; book::TRADES_MAX])
    requires { trades_words ≤ length words.old }
    ensures { words.new ≡ pasted words.old 0 (flat_map trade_image trades.now) }
{
    for (i, t) in trades.iter().enumerate() {
        let row = trade_words(t);
        output::put(words, i * TRADE_WORDS, &row);
    }
}

// Whether a number was received: 1 or 0.
fn flag_of(received: Option<Inbound>) -> u64
    ensures { result ≡ flag_of received }
{
    u64::from(received.is_some())
}

// The last number received, 0 where there is none.
fn last_of(received: Option<Inbound>) -> u64
    ensures { result ≡ last_of received }
{
    received.map_or(0, |last| u64::from(last.0))
}

// The words of all of a book but its trades.
fn rest_words(book: &Book) -> [u64; REST_WORDS]
    ensures { result ≡ rest_image book.now }
{
    let values = &book.values;
    let limits = values.lent.limits;
    let line = values.connection.line;
    let numbers = [
        limits.ceiling,
        limits.variance,
        limits.pools_a_million,
        limits.least,
        values.last_message_id,
        u64::from(values.connection.outbound.0),
        flag_of(line.received),
        last_of(line.received),
        u64::from(line.expected.0),
        book.live as u64,
    ];
    let mut rest = [0; REST_WORDS];
    output::put(&mut rest, TRADE_COUNT, &[values.lent.trade_count as u64]);
    output::put(&mut rest, HOLIDAYS, &date_words(values.lent.holidays));
    output::put(
        &mut rest,
        HOLIDAY_COUNT,
        &[values.lent.holiday_count as u64],
    );
    output::put(&mut rest, SUBSCRIBER, &words_of(values.lent.subscriber));
    output::put(&mut rest, CONNECTION, &words_of(values.connection.id));
    output::put(&mut rest, CEILING, &numbers);
    rest
}

// Writes a book from the front. A slice that is too short for it stays as it is.
pub fn write_book(words: &mut [u64], book: Book)
    ensures { words.new ≡ pasted words.old 0 (image_of book) }
{
    if words.len() < BOOK_WORDS {
        return;
    }
    put_trades(words, &book.values.trades);
    output::put(words, REST, &rest_words(&book));
}

// Writes all of a book but its trades, in its place: after a refusal the trades stand as they are. A slice that is too short for it stays as it is.
pub fn write_rest(words: &mut [u64], book: Book)
    ensures { words.new ≡ pasted words.old trades_words (rest_image book) }
{
    output::put(words, REST, &rest_words(&book));
}
