// Whether the pools that a CC or DK lists are whole live lots of its target (check 37), and which live records it takes off.
#![tactic(auto)]

ghost use Rattle.std.specs.Prelude.{◌≡◌, true, ℕ, ◌+◌, ◌≤◌, ◌<◌, length, get_or};
ghost use Rattle.std.specs.Option.{option_copied};
ghost use Rattle.layout.specs.declared.Detail.{Detail};
ghost use Rattle.layout.specs.Details.{details, pool_count, pools_max, detail_at, place_of};
ghost use Rattle.terminator.specs.Terminators.{is_canceled};
ghost use Rattle.book.specs.Opening.{records_max};
ghost use Rattle.check_listed.specs.Listing.{Findable, Takes};
ghost use Rattle.check_listed.specs.Marks.{Places, number_after, entries_from, mark_all, even_at, marks_even};
ghost use Rattle.check_listed.specs.Lots.{record_of, ordinal_in, last_fits, alike_pool, alike_all};

use book::Pool;
use layout::Detail;
use rows_find::Run;
use terminator::Terminator;

// The number of the lot after a pool.
fn number_after(cc: bool, k: u8, d: &Detail) -> u8
    requires { k ≤ pools_max }
    ensures { result ≡ number_after cc k d.now }
{
    if cc & Terminator::from(d.terminator).is_end() {
        k + 1
    } else {
        k
    }
}

// Marks the record of each listed pool with the number of its lot, and tells whether none had a mark before: one that has is listed twice.
fn mark_places(
    body: &[u8],
    at: &[usize; layout::POOLS_MAX],
    cc: bool,
    marks: &mut [u8; book::RECORDS_MAX],
) -> bool
    requires { (i : ℕ) → i < pool_count body.now → get_or at.now i 0 < records_max }
    ensures { (place : Detail → ℕ) → Places place body.now at.now
        → record { fine = result; marks = marks.new } ≡ mark_all (record { fine = true; marks = marks.old }) (entries_from cc place 1 (details body.now)) }
{
    let mut fine = true;
    let mut lot: u8 = 1;
    for (d, place) in detail_reader::pools(body).zip(at) {
        if !cc | terminator::is_canceled(d) {
            let mark = &mut marks[*place];
            fine = fine & (*mark == 0);
            *mark = lot;
        }
        lot = number_after(cc, lot, &d);
    }
    fine
}

// Whether a record and the next one, where they are of one lot, have equal marks.
fn even_at(pools: &[Pool], marks: &[u8; book::RECORDS_MAX], i: usize) -> bool
    requires { (i + 1 < length pools.now) × (i + 1 < records_max) }
    ensures { result ≡ even_at pools.now marks.now i }
{
    let a = &pools[i];
    let b = &pools[i + 1];
    let lot = (a.message == b.message) & (a.ordinal == b.ordinal);
    !lot | (marks[i] == marks[i + 1])
}

// Whether the records of a run that are of one lot have equal marks.
fn marks_even(pools: &[Pool], marks: &[u8; book::RECORDS_MAX], run: Run) -> bool
    requires { (run.start ≤ run.stop) × (run.stop ≤ length pools.now) × (run.stop ≤ records_max) }
    ensures { result ≡ marks_even pools.now marks.now run.start run.stop }
{
    (run.start + 1..run.stop).all(|next| even_at(pools, marks, next - 1))
}

// The record of a canceled pool; another pool has none.
fn record_of<'a>(pools: &'a [Pool], place: usize, d: &Detail) -> Option<&'a Pool>
    requires { is_canceled d.now ≡ true → place < length pools.now }
    ensures { option_copied result ≡ record_of pools.now place d.now }
{
    if terminator::is_canceled(*d) {
        Some(&pools[place])
    } else {
        None
    }
}

// The ordinal of a pool's record, 0 where it has none.
fn ordinal_in(its_record: Option<&Pool>) -> u64
    ensures { result ≡ ordinal_in (option_copied its_record.entry) }
{
    its_record.map_or(0, |r| r.ordinal)
}

// Whether the record of a lot's last pool has the lot's kind and millions.
fn last_fits(d: &Detail, its_record: Option<&Pool>) -> bool
    ensures { result ≡ last_fits d.now (option_copied its_record.entry) }
{
    match its_record {
        None => true,
        Some(r) => {
            let t = Terminator::from(d.terminator);
            (r.kind == t.kind().number()) & (r.millions == t.millions())
        },
    }
}

// A pass over a CC's pools: whether its 6 lots are like the live lots so far, and the ordinal of the live lot that is begun.
#[derive(Clone, Copy)]
struct Alike {
    fine: bool,
    lot: Option<u64>,
}

// One pool more.
fn alike_pool(s: Alike, d: &Detail, its_record: Option<&Pool>) -> Alike
    ensures { result ≡ alike_pool s d.now (option_copied its_record.entry) }
{
    let ordinal = ordinal_in(its_record);
    let begun = s.lot.unwrap_or(ordinal);
    let fine = s.fine & (begun == ordinal);
    if Terminator::from(d.terminator).is_end() {
        Alike {
            fine: fine & last_fits(d, its_record),
            lot: None,
        }
    } else {
        Alike {
            fine,
            lot: Some(begun),
        }
    }
}

// Whether the records of each 6 lot's pools have one ordinal, and the lot's kind and millions.
fn lots_alike(pools: &[Pool], body: &[u8], at: &[usize; layout::POOLS_MAX]) -> bool
    requires { (i : ℕ) → i < pool_count body.now → is_canceled (detail_at body.now (place_of i)) ≡ true → get_or at.now i 0 < length pools.now }
    ensures { (place : Detail → ℕ) → Places place body.now at.now → result ≡ (alike_all (λ (d : Detail). record_of pools.now (place d) d) (details body.now)).fine }
{
    let mut s = Alike {
        fine: true,
        lot: None,
    };
    for (d, place) in detail_reader::pools(body).zip(at) {
        s = alike_pool(s, &d, record_of(pools, *place, &d));
    }
    s.fine
}

// What a message of any type takes off: a CC or DK what it lists, where that passes 37; another nothing.
// The marks: one for each record, 0 where it stays.
pub fn find_listed(body: &[u8], live: &[Pool]) -> Option<[u8; book::RECORDS_MAX]>
    requires { Findable body.now live.now }
    ensures { Takes body.now live.now result }
{
    let t = header::message_type(body);
    let mut marks = [0u8; book::RECORDS_MAX];
    if !t.lists_lots() {
        return Some(marks);
    }
    let run = rows_find::target_run(live, body);
    let at = rows_find::find_places(body, live, run)?;
    let cc = t.is_cc();
    let once = mark_places(body, &at, cc, &mut marks);
    let even = marks_even(live, &marks, run);
    let alike = !cc || lots_alike(live, body, &at);
    (once & even & alike).then_some(marks)
}
