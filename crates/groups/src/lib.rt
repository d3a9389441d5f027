// The groups of a CC: whether they are formed (20), and whether each has like sums (21).
#![tactic(auto)]

ghost use Rattle.std.specs.Prelude.{◌≡◌};
ghost use Rattle.layout.specs.Details.{details, pools_max};
ghost use Rattle.terminator.specs.Reading.{groups_judged};
ghost use Rattle.groups.specs.Runs.{judged, empty_run, with_kind, with_canceled, with_replacement, run_on, Small};

use layout::Detail;
use terminator::{Groups, Kind, Terminator};

// Checks 20 and 21 of the groups before the one at hand, and the group at hand: its lots, the millions that its canceled and its replacement lots have, and whether all are of one kind.
#[derive(Clone, Copy)]
struct Run {
    before: Groups,
    canceled: usize,
    replacement: usize,
    taken: u64,
    brought: u64,
    good: bool,
    odd: bool,
    bad: bool,
}

impl Run {
    // A new group after those before it.
    fn empty(before: Groups) -> Run
        ensures { result ≡ empty_run before }
    {
        Run {
            before,
            canceled: 0,
            replacement: 0,
            taken: 0,
            brought: 0,
            good: true,
            odd: true,
            bad: true,
        }
    }

    // Checks 20 and 21 of the groups before and of the one at hand.
    fn judged(self) -> Groups
        ensures { result ≡ judged self }
    {
        let some = 1 <= self.canceled && 1 <= self.replacement;
        let single = self.canceled == 1 && self.replacement == 1;
        let alike = self.good || single && (self.odd || self.bad);
        Groups {
            formed: self.before.formed && some && alike,
            balanced: self.before.balanced && self.taken == self.brought,
        }
    }

    // The kinds with one more lot.
    fn with_kind(self, kind: Kind) -> Run
        ensures { result ≡ with_kind self kind }
    {
        Run {
            good: self.good && kind == Kind::Good,
            odd: self.odd && kind == Kind::Odd,
            bad: self.bad && kind == Kind::Bad,
            ..self
        }
    }

    // The groups after one more pool: only an end counts, and a canceled lot after a replacement closes the group at hand.
    #[tactic(auto, using(terminator::proofs::Marks::millions_small))]
    fn on(self, d: Detail) -> Run
        requires { Small pools_max self }
        ensures { result ≡ run_on self d }
    {
        let t = Terminator::from(d.terminator);
        if !t.is_end() {
            return self;
        }
        let canceled = terminator::is_canceled(d);
        let group = if canceled && 0 < self.replacement {
            Run::empty(self.judged())
        } else {
            self
        };
        let group = group.with_kind(t.kind());
        if canceled {
            Run {
                canceled: group.canceled + 1,
                taken: group.taken + t.millions(),
                ..group
            }
        } else {
            Run {
                replacement: group.replacement + 1,
                brought: group.brought + t.millions(),
                ..group
            }
        }
    }
}

// Checks 20 and 21: whether the groups of a CC are formed, and whether each has like sums.
#[tactic(auto, using(crate::proofs::Runs::small_more))]
pub fn groups_of(body: &[u8]) -> Groups
    ensures { result ≡ groups_judged (details body.now) }
{
    let mut run = Run::empty(Groups {
        formed: true,
        balanced: true,
    });
    for d in detail_reader::pools(body) {
        run = run.on(d);
    }
    run.judged()
}
