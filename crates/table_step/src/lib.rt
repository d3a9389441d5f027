// The frame call on a lent table of pool records: 42 first, then the checks of operator, line and sender, then the trader's; then what an accepted message moves, and what goes out.
#![tactic(auto)]

ghost use Rattle.std.specs.Prelude.{◌≡◌, false, ◌≤◌, length, Ok};
ghost use Rattle.layout.specs.Columns.{header_width};
ghost use Rattle.book.specs.Messages.{type_of};
ghost use Rattle.book.specs.Checks.{call, checks, asked_by};
ghost use Rattle.book.specs.Reasons.{is_silent, refusal};
ghost use Rattle.book.specs.Step.{output_for, call_with};
ghost use Rattle.reply.specs.Counters.{with_counters};
ghost use Rattle.check_trader.specs.Decisions.{DecidedBy};
ghost use Rattle.calls.specs.Calls.{Framed};

use book::{Answer, Book, Caller, Pool, Reason};
use calls::Stepped;
use check_trader::Decision;

// All checks in their order, for an output with some room: what moves where all pass, or why the first that fails refuses.
fn decide(
    book: &Book,
    pools: &[Pool],
    body: &[u8],
    caller: Caller,
    room: usize,
) -> Result<Decision, Reason>
    ensures { DecidedBy checks (call book.now pools.now body.now (asked_by caller room)) result }
{
    if !check_soundness::is_sound(book, pools, caller.seed) {
        return Err(Reason::Operator(42, book::SILENT));
    }
    check_sender::first_of_sender(book, body, room)?;
    check_trader::decide(book, pools, body, caller.seed)
}

// A refused frame: what goes out, and the counters.
#[tactic(auto, unfolding(book::specs::Step::output_for))]
fn refuse(book: Book, body: &[u8], reason: Reason, caller: Caller, out: &mut [u8]) -> Stepped
    requires { is_silent (refusal (type_of body.now) reason) ≡ false → header_width ≤ length body.now }
    ensures { (result.answer ≡ refusal (type_of body.now) reason)
        × (result.book ≡ with_counters book body.now (refusal (type_of body.now) reason))
        × (out.new ≡ output_for book body.now (refusal (type_of body.now) reason) caller out.old) }
{
    let number = header::arrived(body);
    let answer = Answer::refusal(header::message_type(body), reason);
    if !answer.is_silent() {
        reply::put_reply(&book, body, number, answer, caller, out);
    }
    Stepped {
        book: reply::with_counters(book, number, answer),
        answer,
    }
}

// An accepted frame: the table, the trade's open par and the last ID move, and the answer goes out.
fn accept(
    book: Book,
    pools: &mut [Pool],
    body: &[u8],
    decision: &Decision,
    caller: Caller,
    out: &mut [u8],
) -> Stepped
    requires { DecidedBy checks (call_with book pools.old body.now caller out.old) (Ok decision.now) }
    ensures framed { Framed book pools.old body.now caller out.old result pools.new out.new }
{
    let number = header::arrived(body);
    let message = book.values.last_message_id + 1;
    let trade = decision.trade;
    let par = book.values.trades[trade].open_par + decision.off - decision.brought;
    let answer = Answer::Accepted(message);
    reply::put_reply(&book, body, number, answer, caller, out);
    let mut after = reply::with_counters(book, number, answer);
    after.live = rows_move::move_table(
        pools,
        book.live,
        body,
        &decision.marks,
        message,
        trade as u64,
    );
    after.values.last_message_id = message;
    after.values.trades[trade].open_par = par;
    Stepped {
        book: after,
        answer,
    }
}

// The frame call, on any book, table, body, caller and output.
pub fn step(book: Book, pools: &mut [Pool], body: &[u8], caller: Caller, out: &mut [u8]) -> Stepped
    ensures { Framed book pools.old body.now caller out.old result pools.new out.new }
{
    match decide(&book, pools, body, caller, out.len()) {
        Ok(decision) => accept(book, pools, body, &decision, caller, out),
        Err(reason) => refuse(book, body, reason, caller, out),
    }
}
