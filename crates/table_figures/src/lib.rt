// A trade's figures on a lent table of pool records: its open par, and the millions of its standing lots.
#![tactic(auto)]

ghost use Rattle.std.specs.Prelude.{◌≡◌, ◌≤◌, length};
ghost use Rattle.book.specs.Opening.{records_max};
ghost use Rattle.rows.specs.Runs.{run_sum, millions_share, share_of};
ghost use Rattle.check_soundness.specs.Parts.{Light};
ghost use Rattle.calls.specs.Calls.{Says};

use book::{Book, Pool};
use calls::Figures;

// The lot millions of a trade's live lots, each lot once.
fn standing(live: &[Pool], trade: u64) -> u64
    requires { (length live.now ≤ records_max) × Light live.now }
    ensures { result ≡ run_sum (share_of trade millions_share) 0 0 live.now }
{
    let mut sum = 0;
    let mut before = (0, 0);
    for p in live {
        let lot = (p.message, p.ordinal);
        if (p.trade == trade) & (lot != before) {
            sum += p.millions;
        }
        before = lot;
    }
    sum
}

// What a book says of a trade, on any book, table and place of a trade. Only a sound book says anything.
#[tactic(auto, unfolding(calls::specs::Figures::figures_of), using(crate::proofs::Sound::live_few, crate::proofs::Sound::short, crate::proofs::Sound::all_light, crate::proofs::Sound::standing))]
pub fn table_figures(book: &Book, pools: &[Pool], trade: usize, seed: u64) -> Option<Figures>
    ensures { Says book.now pools.now trade result }
{
    let trades = book.values.opened_trades();
    let asked = trades.get(trade)?;
    if !check_soundness::is_sound(book, pools, seed) {
        return None;
    }
    let millions = standing(&pools[..book.live], trade as u64);
    Some(Figures {
        open_par: asked.open_par,
        millions,
    })
}
