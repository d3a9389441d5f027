// What goes out after a frame: on a gap a TX first, then the AA, and both counters as they stand after them.
#![tactic(auto)]

ghost use Rattle.std.specs.Prelude.{◌≡◌, false, ℕ, ◌≤◌, List, length};
ghost use Rattle.layout.specs.Columns.{header_width};
ghost use Rattle.book.specs.Checks.{arrived};
ghost use Rattle.book.specs.Reasons.{is_silent};
ghost use Rattle.book.specs.Step.{acknowledged, stamp_at, output_for};
ghost use Rattle.reply.specs.Counters.{with_counters};

use acknowledgment::{Acknowledged, Stamp};
use book::{Answer, Book, Caller};
use sequence::{Arrival, Inbound, Outbound};

// What an AA says of a body and its answer.
fn acknowledge(body: &[u8], answer: Answer, caller: Caller) -> Acknowledged
    requires { header_width ≤ length body.now }
    ensures { result ≡ acknowledged body.now answer caller }
{
    let mut internal = [0; layout::INTERNAL_ID.width];
    let mut original = [0; layout::SEQUENCE.width];
    output::put_part(
        &mut internal,
        0,
        body,
        layout::INTERNAL_ID.at,
        layout::INTERNAL_ID.width,
    );
    output::put_part(
        &mut original,
        0,
        body,
        layout::SEQUENCE.at,
        layout::SEQUENCE.width,
    );
    let time = caller.time;
    Acknowledged {
        internal,
        message: answer.id(),
        code: answer.code(),
        time,
        original,
    }
}

// What a frame of the book's is stamped with, by an outbound number.
fn stamp_at(book: &Book, number: Outbound) -> Stamp
    ensures { result ≡ stamp_at book.now number }
{
    Stamp {
        number,
        subscriber: book.values.lent.subscriber,
        connection: book.values.connection.id,
    }
}

// Writes what goes out after an answer that is not silent. The number is the body's own.
#[tactic(auto, unfolding(book::specs::Step::output_for))]
pub fn put_reply(
    book: &Book,
    body: &[u8],
    number: Inbound,
    answer: Answer,
    caller: Caller,
    out: &mut [u8],
)
    requires header_width_in_bounds { header_width ≤ length body.now }
    requires number_value { number ≡ arrived body.now }
    requires answer_value { is_silent answer ≡ false }
    ensures { out.new ≡ output_for book.now body.now answer caller out.old }
{
    let line = book.values.connection.line;
    let last = stamp_at(book, book.values.connection.outbound);
    let a = acknowledge(body, answer, caller);
    match line.judge(number) {
        Arrival::Gap => {
            let told = acknowledgment::put_tx(&mut *out, 0, last, line.expected, number);
            acknowledgment::put_aa(&mut *out, acknowledgment::TX_LENGTH, told, a);
        },
        _ => {
            acknowledgment::put_aa(&mut *out, 0, last, a);
        },
    }
}

// The book with both counters as they stand after an answer.
#[tactic(auto, unfolding(crate::specs::Counters::with_counters))]
pub fn with_counters(book: Book, number: Inbound, answer: Answer) -> Book
    ensures { (body : List ℕ) → number ≡ arrived body → result ≡ with_counters book body answer }
{
    if answer.is_silent() {
        return book;
    }
    let line = book.values.connection.line;
    let last = book.values.connection.outbound;
    let before = match line.judge(number) {
        Arrival::Gap => last.next(),
        _ => last,
    };
    let mut after = book;
    after.values.connection.line = line.after(number);
    after.values.connection.outbound = before.next();
    after
}
