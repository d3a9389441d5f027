// Whether matched fields stand once: the live records' under each message ID (a part of 42), and those of a message's new pools (36).
#![tactic(auto)]

ghost use Rattle.std.specs.Prelude.{◌≡◌, map, true, not, cond, ◌-◌, ◌≤◌, ◌<◌, length, take, eqb, get_or};
ghost use Rattle.lists.specs.Lists.{any, tab};
ghost use Rattle.layout.specs.Details.{details, pools_max};
ghost use Rattle.faces.specs.Faces.{new_pools};
ghost use Rattle.book.specs.Records.{fields_of, same_fields, distinct, no_pool};
ghost use Rattle.book.specs.Opening.{records_max};
ghost use Rattle.book.specs.Soundness.{in_order, fields_once};
ghost use Rattle.check_once.specs.Seen.{record_at, fields_at, Chain, pool_with};

use book::Pool;
use rows_keys::Spread;

// Where the run of records of one message begins that the i-th record is of, given where the run before it begins.
fn run_of(live: &[Pool], start: usize, i: usize) -> usize
    requires { (start < length live.now) × (i < length live.now) }
    ensures { result ≡ cond (eqb (record_at live.now i).message (record_at live.now start).message) start i }
{
    if live[i].message == live[start].message {
        start
    } else {
        i
    }
}

// Whether the i-th record's matched fields stand among those of the records from start to it: those of its bucket are gone through from the last.
fn stands(live: &[Pool], back: &[u16], last: usize, start: usize, i: usize) -> bool
    requires in_bounds { (i < length live.now) × (i ≤ length back.now) × (start ≤ i) }
    requires chain { Chain live.now back.now i last }
    ensures { result ≡ any (same_fields (fields_at live.now i)) (tab (fields_at live.now) (i - start) start) }
{
    let mut j = last;
    while start < j {
        if rows_keys::same_fields(&live[i].matched, &live[j - 1].matched) {
            return true;
        }
        j = usize::from(back[j - 1]);
    }
    false
}

// The search for matched fields that stand twice: a record's are sought among those of its own message before it, and of these among those of its bucket. The seed says how they are spread over buckets, and nothing else hangs on it.
fn search(live: &[Pool], seed: u64) -> bool
    requires { (length live.now ≤ records_max) × (in_order live.now ≡ true) }
    ensures { result ≡ fields_once live.now }
{
    let spread = Spread::new(seed);
    let mut seen = [0u16; rows_keys::BUCKETS];
    let mut back = [0u16; book::RECORDS_MAX];
    let mut start = 0;
    for (i, pool) in live.iter().enumerate() {
        start = run_of(live, start, i);
        let bucket = spread.bucket(&pool.matched);
        let last = seen[bucket];
        if stands(live, &back, usize::from(last), start, i) {
            return false;
        }
        back[i] = last;
        seen[bucket] = (i + 1) as u16;
    }
    true
}

// Whether the live records have no matched fields twice under one message ID, where they are in order. A single one cannot.
#[tactic(auto, using(crate::proofs::Twins::few_once))]
pub fn fields_once(live: &[Pool], seed: u64) -> bool
    requires { (length live.now ≤ records_max) × (in_order live.now ≡ true) }
    ensures { result ≡ fields_once live.now }
{
    live.len() < 2 || search(live, seed)
}

// Writes a message's new pools from the front, each as a record that has only its matched fields, and gives their number.
fn put_pools(body: &[u8], pools: &mut [Pool; layout::POOLS_MAX]) -> usize
    ensures { (result ≡ length (new_pools (details body.now))) × (take result pools.new ≡ map pool_with (new_pools (details body.now))) × (result ≤ pools_max) }
{
    let mut n = 0;
    for d in detail_reader::pools(body) {
        if terminator::is_new(d) {
            pools[n] = Pool {
                matched: d.matched,
                ..rows::none()
            };
            n += 1;
        }
    }
    n
}

// 36: whether a message's new pools have matched fields twice. They are a table whose records are all of one message.
pub fn repeated(body: &[u8], seed: u64) -> bool
    ensures { result ≡ not (distinct (map fields_of (new_pools (details body.now)))) }
{
    let mut pools = [rows::none(); layout::POOLS_MAX];
    let n = put_pools(body, &mut pools);
    !fields_once(&pools[..n], seed)
}
