// What the calls for C and Rust do on either side of a call on the table: the book that words say, the answer and the book after a call written, a trade's figures, a frame and a tally in numbers.
#![tactic(auto)]

ghost use Rattle.std.specs.Prelude.{◌≡◌, false, length};
ghost use Rattle.lists.specs.Lists.{pasted};
ghost use Rattle.book.specs.Opening.{values_fine};
ghost use Rattle.image.specs.Images.{is_image};
ghost use Rattle.calls_words.specs.Calls.{time_width, caller_of, callable, said_with, words_after};
ghost use Rattle.calls_words.specs.Figures.{figures_numbers};
ghost use Rattle.exports_book.specs.Reading.{Reads, ReadsValues};
ghost use Rattle.exports_book.specs.Writing.{told_as, outbound_in, bytes_out, Finishes, OpensTo, frame_numbers};
ghost use Rattle.calls_words.specs.Tally.{rows_after};

use book::{Answer, Book, Caller, Connection, Lent, Limits, Reason, Values};
use calls::{Figures, Stepped};
use framing::Frame;
use sequence::{Line, Outbound};

// The number of an opening that is refused.
const REFUSED: u64 = 41;

// The number of a frame call whose time bytes are not six: it is the caller's fault and not the book's, and no number of the papers.
const TIME_REFUSED: u64 = 90;

// Values of more trades than a book has: opening refuses them, whatever the table is.
#[tactic(auto, using(crate::proofs::Reading::too_many))]
fn refused_values() -> Values
    ensures { values_fine result ≡ false }
{
    let none = image::no_trade();
    Values {
        trades: [none; book::TRADES_MAX],
        lent: Lent {
            trade_count: book::TRADES_MAX + 1,
            holidays: [0; book::HOLIDAYS_MAX],
            holiday_count: 0,
            subscriber: [0; 4],
            limits: Limits {
                ceiling: 0,
                variance: 0,
                pools_a_million: 0,
                least: 0,
            },
        },
        last_message_id: 0,
        connection: Connection {
            id: [0; 4],
            line: Line::start(),
            outbound: Outbound(0),
        },
    }
}

// A book of such values: every call on it is refused.
fn refused_book() -> Book
    ensures { values_fine result.values ≡ false }
{
    Book {
        values: refused_values(),
        live: 0,
    }
}

// The book that words say; where they say none, one that is refused.
#[tactic(auto, unfolding(image_reading::specs::Reading::read_book))]
pub fn book_of(image: &[u64]) -> Book
    ensures { Reads (is_image image.now) image.now result }
{
    match image_reading::read_book(image) {
        Some(book) => book,
        None => refused_book(),
    }
}

// The book that words say, where the time bytes are six; else one that is refused.
#[tactic(auto, unfolding(calls_words::specs::Calls::callable, image_reading::specs::Reading::read_book))]
pub fn start(image: &[u64], time: &[u8]) -> Book
    ensures { Reads (callable image.now time.now) image.now result }
{
    match image_reading::read_book(image) {
        Some(book) if time.len() == acknowledgment::TIME_WIDTH => book,
        _ => refused_book(),
    }
}

// What the time bytes and the seed give a call, where the bytes are six.
pub fn caller_of(time: &[u8], seed: u64) -> Caller
    ensures { length time.now ≡ time_width → result ≡ caller_of time.now seed }
{
    Caller {
        time: <[u8; acknowledgment::TIME_WIDTH]>::try_from(time).unwrap_or_default(),
        seed,
    }
}

// The answer that is told: the call's own where the time bytes are six.
#[tactic(auto, unfolding(crate::specs::Writing::told_as))]
fn told_answer(time: &[u8], answer: Answer) -> Answer
    ensures { result ≡ told_as time.now answer }
{
    if time.len() != acknowledgment::TIME_WIDTH {
        return Answer::Rejected(Reason::Operator(TIME_REFUSED, book::SILENT));
    }
    answer
}

// The last outbound number that words say, 0 where they are too few or too many.
#[tactic(auto, unfolding(crate::specs::Writing::outbound_in))]
fn outbound_in(image: &[u64]) -> u64
    ensures { result ≡ outbound_in image.now }
{
    if image.len() != image::BOOK_WORDS {
        return 0;
    }
    image[image::REST + image::OUTBOUND]
}

// How many bytes went out between two outbound numbers: an AA alone where they are neighbors, else a TX before it.
#[tactic(auto, unfolding(crate::specs::Writing::bytes_out))]
fn bytes_out(quiet: bool, before: u64, after: u64) -> u64
    ensures { result ≡ bytes_out quiet before after }
{
    if quiet {
        return 0;
    }
    if after == 0 {
        return book::ROOM_LEAST as u64;
    }
    if before == after - 1 {
        return acknowledgment::AA_LENGTH as u64;
    }
    book::ROOM_LEAST as u64
}

// Writes an answer in two numbers, and how many bytes went out.
#[tactic(auto, using(crate::proofs::Writing::two_more))]
fn say(said: &mut [u64], answer: Answer, bytes: u64)
    ensures { said.new ≡ pasted said.old 0 (said_with answer bytes) }
{
    let [kind, number] = exports_numbers::said_of(answer);
    output::put(said, 0, &[kind, number, bytes]);
}

// Writes of the book after an answer what can have moved: nothing after a silent refusal, and all but the trades after any other.
#[tactic(auto, unfolding(calls_words::specs::Calls::words_after))]
fn write_after(image: &mut [u64], answer: Answer, book: &Book)
    ensures { image.new ≡ words_after image.old answer book.now }
{
    if answer.is_silent() {
        return;
    }
    if answer.is_accepted() {
        image::write_book(image, *book);
    } else {
        image::write_rest(image, *book);
    }
}

// Says the answer and how many bytes went out, and writes what can have moved of the book after the call.
pub fn finish(image: &mut [u64], said: &mut [u64], time: &[u8], stepped: Stepped)
    ensures { Finishes image.old said.old time.now stepped image.new said.new }
{
    let answer = told_answer(time, stepped.answer);
    let last = u64::from(stepped.book.values.connection.outbound.0);
    let bytes = bytes_out(answer.is_silent(), outbound_in(image), last);
    say(said, answer, bytes);
    write_after(image, answer, &stepped.book);
}

// The values that words lend to opening; where they lend none, values that are refused.
#[tactic(auto, unfolding(image_reading::specs::Reading::read_lent))]
pub fn values_of(image: &[u64]) -> Values
    ensures { ReadsValues image.now result }
{
    match image_reading::read_lent(image) {
        Some(values) => values,
        None => refused_values(),
    }
}

// Writes the opened book, and gives the number of the opening.
pub fn finish_opening(image: &mut [u64], opened: Result<Book, Book>) -> u64
    ensures { OpensTo image.old opened image.new result }
{
    let Ok(book) = opened else {
        return REFUSED;
    };
    image::write_book(&mut *image, book);
    0
}

// Writes what is said of a trade in three numbers: zeros where it is not known.
#[tactic(auto, unfolding(calls_words::specs::Figures::figures_numbers))]
pub fn put_figures(out: &mut [u64], said: Option<Figures>)
    ensures { out.new ≡ pasted out.old 0 (figures_numbers said) }
{
    let three = match said {
        Some(f) => [1, f.open_par, f.millions],
        None => [0; 3],
    };
    output::put(out, 0, &three);
}

// The tally after a frame call: raised by the message's type and what the two numbers tell. A slice that is not four rows stays as it is, and so does any where no AA tells the numbers.
#[tactic(auto, unfolding(calls_words::specs::Tally::rows_after))]
pub fn count(rows: &mut [[u32; 3]], body: &[u8], said: &[u64])
    ensures { rows.new ≡ rows_after body.now said.now rows.old }
{
    if rows.len() != tally::TYPES {
        return;
    }
    let Some(outcome) = exports_numbers::hear(said) else {
        return;
    };
    let kind = header::message_type(body);
    let before = tally::tally_of(rows);
    let after = tally::raise(before, kind, outcome);
    tally::put_rows(&mut *rows, after);
}

// A frame as four numbers.
pub fn frame_numbers(f: Option<Frame>) -> [u64; 4]
    ensures { result ≡ frame_numbers f }
{
    match f {
        Some(f) => [1, f.start as u64, f.end as u64, f.next as u64],
        None => [0; 4],
    }
}
