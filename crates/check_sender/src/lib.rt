// The checks of the line and the sender's system, 43 and 44 and then 10 to 25: the first that fails.
#![tactic(auto)]

ghost use Rattle.std.specs.Prelude.{◌≡◌, ◌&&◌, ◌||◌, ℕ, List, leb};
ghost use Rattle.book.specs.declared.Caller.{Caller};
ghost use Rattle.book.specs.declared.Pool.{Pool};
ghost use Rattle.sequence.specs.Sequence.{outbound_spent};
ghost use Rattle.book.specs.Opening.{eleven_digits_max};
ghost use Rattle.book.specs.Checks.{call, sender_checks, first_failing, asked_by, sequence_repeats, lot_form_fails};
ghost use Rattle.book.specs.Messages.{type_of};
ghost use Rattle.message_type.specs.Questions.{brings_lots};
ghost use Rattle.check_sender.specs.Parts.{line_checks, common_checks, cc_checks, dk_checks};

use book::{Book, Reason, Values, Verdict, check};
use sequence::Arrival;

// 43: the last ID is the highest, or fewer than two outbound numbers are left.
fn is_spent(v: &Values) -> bool
    ensures { result ≡ (leb eleven_digits_max v.now.last_message_id || outbound_spent v.now.connection.outbound) }
{
    (book::ELEVEN_DIGITS_MAX <= v.last_message_id) | v.connection.outbound.spent()
}

// 12: the sequence number is the last one received.
fn repeats(v: &Values, body: &[u8]) -> bool
    ensures { result ≡ sequence_repeats v.now.connection.line body.now }
{
    matches!(
        v.connection.line.judge(header::arrived(body)),
        Arrival::Duplicate
    )
}

// 19: of an ON and a CC, terminators that make no whole lots.
fn lots_fail(body: &[u8]) -> bool
    ensures { result ≡ (brings_lots (type_of body.now) && lot_form_fails body.now) }
{
    let kind = header::message_type(body);
    kind.brings_lots() && !lots::lots_formed(body, kind.is_cc())
}

// 43, 44 and 10 to 12: the numbers that are left, the room, and the line.
#[tactic(auto, unfolding(book::specs::Checks::sender_checks))]
fn first_of_line(book: &Book, body: &[u8], room: usize) -> Verdict
    ensures { (table : List Pool) (caller : Caller) → result ≡ first_failing line_checks (call book.now table body.now (asked_by caller room)) }
{
    let v = &book.values;
    check(is_spent(v), Reason::Operator(43, book::SILENT))?;
    check(room < book::ROOM_LEAST, Reason::Operator(44, book::SILENT))?;
    check(!header::length_fits(body), Reason::Line(10, book::SILENT))?;
    check(header::sequence_fails(body), Reason::Line(11, book::SILENT))?;
    check(repeats(v, body), Reason::Line(12, book::TOLD))
}

// 13 to 19, of every type but 18 and 19.
#[tactic(auto, unfolding(book::specs::Checks::sender_checks))]
fn first_of_common(book: &Book, body: &[u8]) -> Verdict
    ensures { (table : List Pool) (caller : Caller) (room : ℕ) → result ≡ first_failing common_checks (call book.now table body.now (asked_by caller room)) }
{
    let v = &book.values;
    let kind = header::message_type(body);
    check(kind.is_other(), Reason::Sender(13, book::TOLD))?;
    check(header::version_wrong(body), Reason::Sender(14, book::TOLD))?;
    check(!header::fillers_fine(body), Reason::Sender(15, book::TOLD))?;
    check(
        header::amounts_fail(v.lent.limits.ceiling, body),
        Reason::Sender(16, book::TOLD),
    )?;
    check(
        !header::parties_fine(v, body),
        Reason::Sender(17, book::TOLD),
    )?;
    check(kind.is_cx(), Reason::Sender(18, book::TOLD))?;
    check(lots_fail(body), Reason::Sender(19, book::TOLD))
}

// 20 to 23, of a CC alone.
#[tactic(auto, unfolding(book::specs::Checks::sender_checks))]
fn first_of_cc(book: &Book, body: &[u8]) -> Verdict
    ensures { (table : List Pool) (caller : Caller) (room : ℕ) → result ≡ first_failing cc_checks (call book.now table body.now (asked_by caller room)) }
{
    if !header::message_type(body).is_cc() {
        return Ok(());
    }
    let groups = groups::groups_of(body);
    check(!groups.formed, Reason::Sender(20, book::TOLD))?;
    check(!groups.balanced, Reason::Sender(21, book::TOLD))?;
    check(
        header::replacements_fail(body),
        Reason::Sender(22, book::TOLD),
    )?;
    check(
        header::settlement_fails(&book.values, body),
        Reason::Sender(23, book::TOLD),
    )
}

// 24 and 25, of a DK alone.
#[tactic(auto, unfolding(book::specs::Checks::sender_checks))]
fn first_of_dk(book: &Book, body: &[u8]) -> Verdict
    ensures { (table : List Pool) (caller : Caller) (room : ℕ) → result ≡ first_failing dk_checks (call book.now table body.now (asked_by caller room)) }
{
    if !header::message_type(body).is_dk() {
        return Ok(());
    }
    check(header::reason_fails(body), Reason::Sender(24, book::TOLD))?;
    header::id_verdict(body)
}

// The first check that fails.
pub fn first_of_sender(book: &Book, body: &[u8], room: usize) -> Verdict
    ensures { (table : List Pool) (caller : Caller) → result ≡ first_failing sender_checks (call book.now table body.now (asked_by caller room)) }
{
    first_of_line(book, body, room)?;
    first_of_common(book, body)?;
    first_of_cc(book, body)?;
    first_of_dk(book, body)
}
