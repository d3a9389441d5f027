// The new lots of a message, lot by lot: whether one fails 35, and what they weigh.
#![tactic(auto)]

ghost use Rattle.std.specs.Prelude.{◌≡◌, ◌≤◌, length};
ghost use Rattle.std.specs.Iterator.{YieldsFirst, item_count};
ghost use Rattle.layout.specs.Details.{details, pools_max};
ghost use Rattle.detail_reader.specs.Left.{details_left};
ghost use Rattle.faces.specs.Faces.{lots_fail, new_weight};
ghost use Rattle.new_lots.specs.Lots.{lots_left, sum_fails};

use detail_reader::Details;
use terminator::Terminator;

// A lot by its sums: what its end says, whether it is new, the sum of its current faces in cents, the number of its pools, and its weight in cents.
#[derive(Clone, Copy)]
struct LotSum {
    end: Terminator,
    new: bool,
    cents: u64,
    pools: u64,
    weight: u64,
}

impl LotSum {
    // 35 of the lot: only a good one is held to it.
    fn fails(self, variance: u64, pools_a_million: u64) -> bool
        ensures { result ≡ sum_fails variance pools_a_million self }
    {
        match self.end {
            Terminator::GoodEnd(millions) => faces::good_lot_fails(
                self.cents,
                self.pools,
                millions,
                variance,
                pools_a_million,
            ),
            _ => false,
        }
    }
}

// Goes through the pools of a message lot by lot.
#[derive(Clone, Copy)]
struct Lots<'a> {
    pools: Details<'a>,
}

impl<'a> Iterator for Lots<'a> {
    type Item = LotSum;

    ghost can_next = { λ s. length (details_left s.pools) ≤ pools_max };

    ghost next_gives = { YieldsFirst lots_left };

    ghost remaining = { item_count lots_left };

    // The lot that begins where the reader stands, or nothing where no end follows.
    #[tactic(auto, using(terminator::proofs::Found::cents_small, terminator::proofs::Marks::millions_small))]
    fn next(&mut self) -> Option<LotSum> {
        let mut cents = 0;
        let mut pools = 0;
        while let Some(d) = self.pools.next() {
            cents += terminator::current_cents(d);
            pools += 1;
            let end = Terminator::from(d.terminator);
            if end.is_end() {
                return Some(LotSum {
                    end,
                    new: terminator::is_new(d),
                    cents,
                    pools,
                    weight: end.weight(cents),
                });
            }
        }
        None
    }
}

// The lots of a message.
fn lots_of<'a>(body: &'a [u8]) -> Lots<'a>
    ensures all { details_left result.pools ≡ details body.entry.now }
    ensures few { length (details_left result.pools) ≤ pools_max }
{
    Lots {
        pools: detail_reader::pools(body),
    }
}

// 35 of a message: some new lot fails it.
pub fn lots_fail(body: &[u8], variance: u64, pools_a_million: u64) -> bool
    ensures { result ≡ lots_fail variance pools_a_million (details body.now) }
{
    lots_of(body)
        .filter(|lot| lot.new)
        .any(|lot| lot.fails(variance, pools_a_million))
}

// The weight in cents of a message's new lots.
pub fn new_weight(body: &[u8]) -> u64
    ensures { result ≡ new_weight (details body.now) }
{
    lots_of(body)
        .filter(|lot| lot.new)
        .map(|lot| lot.weight)
        .sum()
}
