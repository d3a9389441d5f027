// Where the target's records stand in the table, where each listed pool stands among them, and what marked records weigh.
#![tactic(auto)]

ghost use Rattle.std.specs.Prelude.{◌≡◌, ◌==◌, ◌≤◌, length};
ghost use Rattle.std.specs.List.{position_or_len, prefix_len};
ghost use Rattle.book.specs.Messages.{target_of};
ghost use Rattle.rows.specs.Runs.{run_sum, weight_share};
ghost use Rattle.rows_find.specs.Runs.{run_of};
ghost use Rattle.rows_find.specs.Finding.{lists, Finds};
ghost use Rattle.rows_find.specs.Marks.{marked, Weighable};

use book::Pool;
use layout::Detail;
use message_type::MessageType;

// The records from start up to stop.
#[derive(Clone, Copy)]
pub struct Run {
    pub start: usize,
    pub stop: usize,
}

// How many records stand before the first under a message ID.
fn ahead(pools: &[Pool], id: u64) -> usize
    ensures value { result ≡ position_or_len (λ p. p.message == id) pools.now }
    ensures within { result ≤ length pools.now }
{
    pools.iter().take_while(|p| p.message != id).count()
}

// How many records from the first on are under a message ID.
fn leading(pools: &[Pool], id: u64) -> usize
    ensures value { result ≡ prefix_len (λ p. p.message == id) pools.now }
    ensures within { result ≤ length pools.now }
{
    pools.iter().take_while(|p| p.message == id).count()
}

// Where the target's records stand among the live ones.
pub fn target_run(live: &[Pool], body: &[u8]) -> Run
    ensures { result ≡ run_of (target_of body.now) live.now }
{
    match layout::number_in(body, layout::TARGET) {
        None => Run {
            start: live.len(),
            stop: live.len(),
        },
        Some(id) => {
            let start = ahead(live, id);
            let stop = start + leading(&live[start..], id);
            Run { start, stop }
        },
    }
}

// Whether a message of a type lists a pool.
fn is_listed(t: MessageType, d: &Detail) -> bool
    ensures { result ≡ lists t d.now }
{
    let canceled = d.terminator[0] == terminator::CANCELED;
    t.lists_lots() & (t.lists_all() | canceled)
}

// For each pool that a message lists, its place among the records of the run, by the pool's index in the message; the search ends at the first pool without one.
// It goes on from the record after the last one found, then from the start, so that pools listed in the table's order cost one comparison each.
#[tactic(auto, using(layout::proofs::Lengths::count_max))]
pub fn find_places(body: &[u8], pools: &[Pool], run: Run) -> Option<[usize; layout::POOLS_MAX]>
    requires { (run.start ≤ run.stop) × (run.stop ≤ length pools.now) }
    ensures { Finds body.now pools.now run result }
{
    let t = header::message_type(body);
    let mut at = [0usize; layout::POOLS_MAX];
    let mut next = run.start;
    let mut found = true;
    'listed: for d in 0..layout::pool_count(body) {
        let pool = layout::pool_at(body, d);
        if !is_listed(t, &pool) {
            continue 'listed;
        }
        let mut again = false;
        let mut j = next;
        let mut end = run.stop;
        'live: loop {
            if j < end {
                if rows_keys::same_fields(&pools[j].matched, &pool.matched) {
                    break 'live;
                }
                j += 1;
            } else {
                if again {
                    found = false;
                    break 'listed;
                }
                again = true;
                j = run.start;
                end = next;
            }
        }
        at[d] = j;
        next = j + 1;
    }
    if found { Some(at) } else { None }
}

// What the lots of the marked live records weigh, in cents.
pub fn weight_of_marked(live: &[Pool], marks: &[u8]) -> u64
    requires { Weighable live.now marks.now }
    ensures { result ≡ run_sum weight_share 0 0 (marked marks.now live.now) }
{
    let mut sum = 0;
    let mut message = 0;
    let mut ordinal = 0;
    for (record, mark) in live.iter().zip(marks) {
        if *mark != 0 {
            let begins = !((record.message == message) & (record.ordinal == ordinal));
            sum += rows::weight_share(record, begins);
            message = record.message;
            ordinal = record.ordinal;
        }
    }
    sum
}
