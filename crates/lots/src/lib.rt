// The lots that the terminators of a message make: whether they are formed (19), the replacement pools (22), the good millions (33), and the lot that begins at a pool.
#![tactic(auto)]

ghost use Rattle.std.specs.Prelude.{◌≡◌, drop};
ghost use Rattle.layout.specs.Details.{details};
ghost use Rattle.terminator.specs.Lots.{replacement_count, good_millions, formed_for, lots};
ghost use Rattle.terminator.specs.Reading.{first_lot};
ghost use Rattle.lots.specs.Walks.{walk_on};

use layout::Detail;
use terminator::{LotHead, Terminator};

// The number of replacement pools.
#[tactic(auto, unfolding(terminator::specs::Lots::replacement_count))]
pub fn replacement_count(body: &[u8]) -> usize
    ensures { result ≡ replacement_count (details body.now) }
{
    detail_reader::pools(body)
        .filter(|d| terminator::is_replacement(*d))
        .count()
}

// The sum of the good millions of a message's lots.
pub fn good_millions(body: &[u8]) -> u64
    ensures { result ≡ good_millions (details body.now) }
{
    detail_reader::pools(body)
        .map(|d| Terminator::from(d.terminator).millions())
        .sum()
}

// The lot that is begun: its position one, and whether it is bad.
#[derive(Clone, Copy, PartialEq, Eq)]
struct Begun {
    one: u8,
    bad: bool,
}

// A walk over the pools: whether the lots are formed so far, and the lot that is begun.
#[derive(Clone, Copy)]
struct Walk {
    formed: bool,
    begun: Option<Begun>,
}

// One pool more, of a CC or of an ON.
fn walk_on(w: Walk, d: Detail, cc: bool) -> Walk
    ensures { result ≡ walk_on cc w d }
{
    let t = Terminator::from(d.terminator);
    let here = Begun {
        one: d.terminator[0],
        bad: t.is_bad(),
    };
    let first = if cc {
        here.one == terminator::CANCELED || here.one == terminator::REPLACEMENT
    } else {
        here.one == terminator::NEW
    };
    let follows = w.begun.is_none_or(|lot| lot == here);
    Walk {
        formed: w.formed && follows && first && !t.is_wrong(),
        begun: if t.is_end() { None } else { Some(here) },
    }
}

// Check 19: whether the pools of an ON, or of a CC, make whole lots.
pub fn lots_formed(body: &[u8], cc: bool) -> bool
    ensures { result ≡ formed_for cc (details body.now) }
{
    let mut w = Walk {
        formed: true,
        begun: None,
    };
    for d in detail_reader::pools(body) {
        w = walk_on(w, d, cc);
    }
    w.formed && w.begun.is_none()
}

// The lot that begins at a pool, or nothing where no end follows.
#[tactic(auto, using(crate::proofs::Sought::seeking))]
pub fn lot_at(body: &[u8], first: usize) -> Option<LotHead>
    ensures { result ≡ first_lot first (lots (drop first (details body.now))) }
{
    let mut faces = 0;
    for i in first..layout::pool_count(body) {
        let d = layout::pool_at(body, i);
        faces += terminator::current_cents(d);
        if Terminator::from(d.terminator).is_end() {
            return Some(terminator::lot_ended(d, first, i, faces));
        }
    }
    None
}
