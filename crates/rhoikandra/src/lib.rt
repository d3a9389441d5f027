// The calls for C and Rust, all in one archive: a book is kept as words, a table as a lent slice of pool records, and each call writes into lent slices.
#![tactic(auto)]

ghost use Rattle.std.specs.Prelude.{◌≡◌, ◌-◌, ◌≤◌, length};
ghost use Rattle.lists.specs.Lists.{pasted};
ghost use Rattle.framing.specs.Framing.{next_frame};
ghost use Rattle.exports_book.specs.Writing.{frame_numbers};
ghost use Rattle.calls_words.specs.Tally.{rows_after};
ghost use Rattle.calls_words.specs.Calls.{Calls};
ghost use Rattle.calls_words.specs.Opening.{Opening};
ghost use Rattle.calls_words.specs.Figures.{figures_in, figures_numbers};
ghost use Rattle.calls_words.specs.Faults.{opening_fault_in, book_fault_in, fault_numbers};

use book::Pool;

// The frame call on the book that words say. It says the answer in two numbers, and how many bytes of the output are its own. Time bytes that are not six are refused with 90, and words that are no book's with 42.
#[unsafe(no_mangle)]
pub extern "C" fn rhoikandra_step(
    image: &mut [u64],
    pools: &mut [Pool],
    body: &[u8],
    time: &[u8],
    seed: u64,
    out: &mut [u8],
    said: &mut [u64],
)
    ensures { Calls image.old pools.old body.now time.now seed out.old said.old image.new pools.new out.new said.new }
{
    let book = exports_book::start(image, time);
    let caller = exports_book::caller_of(time, seed);
    let stepped = table_step::step(book, pools, body, caller, out);
    exports_book::finish(image, said, time, stepped);
}

// Opens a book by the values that words say: 0, or 41 where it is refused.
#[tactic(auto, using(crate::proofs::Opening::opening_made))]
#[unsafe(no_mangle)]
pub extern "C" fn rhoikandra_open(image: &mut [u64], pools: &mut [Pool]) -> u64
    ensures { Opening image.old pools.old image.new pools.new result }
{
    let values = exports_book::values_of(image);
    let opened = table_open::open_table(values, pools);
    exports_book::finish_opening(image, opened)
}

// Writes whether a trade is known, its open par and its standing millions.
#[tactic(auto, using(crate::proofs::Saying::figures_said))]
#[unsafe(no_mangle)]
pub extern "C" fn rhoikandra_figures(
    image: &[u64],
    pools: &[Pool],
    trade: usize,
    seed: u64,
    out: &mut [u64],
)
    ensures { out.new ≡ pasted out.old 0 (figures_numbers (figures_in image.now pools.now trade)) }
{
    let book = exports_book::book_of(image);
    let f = table_figures::table_figures(&book, pools, trade, seed);
    exports_book::put_figures(out, f);
}

// Writes which rule of 41 is broken first by what words lend and a table of so many records, and the trade or holiday that it is about; zeros where none is.
#[unsafe(no_mangle)]
pub extern "C" fn rhoikandra_opening_fault(image: &[u64], records: usize, out: &mut [u64])
    ensures { out.new ≡ pasted out.old 0 (fault_numbers (opening_fault_in image.now records)) }
{
    let found = exports_fault::opening_fault(image, records);
    exports_fault::put_fault(out, found);
}

// Writes which rule of 42 is broken first by the book that words say and its table, and the trade, holiday or record that it is about; zeros where none is.
#[tactic(auto, using(crate::proofs::Naming::book_fault_said))]
#[unsafe(no_mangle)]
pub extern "C" fn rhoikandra_book_fault(image: &[u64], pools: &[Pool], out: &mut [u64])
    ensures { out.new ≡ pasted out.old 0 (fault_numbers (book_fault_in image.now pools.now)) }
{
    let book = exports_book::book_of(image);
    let found = table_fault::table_fault(&book, pools);
    exports_fault::put_book_fault(out, image, found);
}

// The tally after a frame call: raised by the message's type and what the two numbers tell. A slice that is not four rows stays as it is, and so does any where no AA tells the numbers.
#[unsafe(no_mangle)]
pub extern "C" fn rhoikandra_tally(rows: &mut [[u32; 3]], body: &[u8], said: &[u64])
    ensures { rows.new ≡ rows_after body.now said.now rows.old }
{
    exports_book::count(rows, body, said);
}

// Writes the frame that stands on the tape from a place on, and gives the count of bytes dropped on the way to it; the paper gives that a bound alone.
#[unsafe(no_mangle)]
pub extern "C" fn rhoikandra_frame(tape: &[u8], at: usize, out: &mut [u64]) -> usize
    ensures { (out.new ≡ pasted out.old 0 (frame_numbers (next_frame tape.now at))) × (result ≤ length tape.now - at) }
{
    let found = framing::next_frame(tape, at);
    output::put(out, 0, &exports_book::frame_numbers(found.frame));
    found.dropped
}
