// Which record of a table breaks a rule of soundness first: each live one by itself and after the one before it, matched fields that stand again, and records after the live ones that are not zeros.
#![tactic(auto)]

ghost use Rattle.std.specs.Prelude.{◌≡◌, ◌≤◌, length, drop};
ghost use Rattle.lists.specs.Lists.{any};
ghost use Rattle.fault.specs.Rules.{each};
ghost use Rattle.fault.specs.Faults.{record_fault, follows_fault, next_fault, order_fault, twins, once_fault, zeros_fault};

use book::{Pool, Values};
use fault::Fault;

// 151 to 155: a live record by itself.
#[tactic(auto, unfolding(fault::specs::Faults::record_fault))]
fn record_fault(p: &Pool, values: &Values, place: u64) -> Option<Fault>
    ensures { result ≡ record_fault values.now place p.now }
{
    fault::broken(
        place,
        &[
            (151, p.trade < values.lent.trade_count as u64),
            (152, (1..=values.last_message_id).contains(&p.message)),
            (153, 1 <= p.ordinal),
            (154, p.current <= book::ELEVEN_DIGITS_MAX),
            (155, check_soundness::kind_fine(p)),
        ],
    )
}

// The first live record that is not fine by itself.
pub fn records_fault(live: &[Pool], values: &Values) -> Option<Fault>
    ensures { result ≡ each (record_fault values.now) 0 live.now }
{
    fault::first_of(live, 0, |place, p, _| record_fault(p, values, place))
}

// 156 to 158: a live record after the one before it.
#[tactic(auto, unfolding(fault::specs::Faults::follows_fault))]
fn follows_fault(before: &Pool, p: &Pool, place: u64) -> Option<Fault>
    ensures { result ≡ follows_fault place before.now p.now }
{
    let message = before.message == p.message;
    let lot = message & (before.ordinal == p.ordinal);
    let alike = (before.kind == p.kind) & (before.millions == p.millions);
    fault::broken(
        place,
        &[
            (
                156,
                (before.message < p.message) | (message & (before.ordinal <= p.ordinal)),
            ),
            (157, !message | (before.trade == p.trade)),
            (158, !lot | alike),
        ],
    )
}

// The same of a record and the next one, which is that of the place, where there is one.
fn next_fault(before: &Pool, later: &[Pool], place: u64) -> Option<Fault>
    ensures { result ≡ next_fault place before.now later.now }
{
    follows_fault(before, later.first()?, place)
}

// The first live record that does not follow on the one before it.
pub fn order_fault(live: &[Pool]) -> Option<Fault>
    ensures { result ≡ order_fault 0 live.now }
{
    fault::first_of(live, 1, |place, before, later| {
        next_fault(before, later, place)
    })
}

// Whether two records are of one message and have equal matched fields.
fn are_twins(p: &Pool, q: &Pool) -> bool
    ensures { result ≡ twins p.now q.now }
{
    (p.message == q.message) & rows_keys::same_fields(&p.matched, &q.matched)
}

// Whether a record's fields stand again after it.
fn stands_again(p: &Pool, later: &[Pool]) -> bool
    ensures { result ≡ any (twins p.now) later.now }
{
    later.iter().any(|q| are_twins(p, q))
}

// 159: the first live record whose matched fields stand again under its message ID.
pub fn once_fault(live: &[Pool]) -> Option<Fault>
    ensures { result ≡ once_fault 0 live.now }
{
    fault::first_of(live, 0, |place, p, later| {
        fault::tested(159, place, !stands_again(p, later))
    })
}

// 160: the first record from a place on that is not zeros.
pub fn zeros_fault(pools: &[Pool], from: usize) -> Option<Fault>
    requires { from ≤ length pools.now }
    ensures { result ≡ each zeros_fault from (drop from pools.now) }
{
    fault::first_of(&pools[from..], from as u64, |place, p, _| {
        fault::tested(160, place, rows::is_none(p))
    })
}
