// Which rule of opening or of soundness is broken first, and what it is about: the answer's type, and how tests make it up.
#![tactic(auto)]

ghost use Rattle.std.specs.Prelude.{◌≡◌, ℕ, List, map, Option, ◌+◌, ◌<◌, ◌^◌, length};
ghost use Rattle.fault.specs.declared.Fault.{Fault};
ghost use Rattle.fault.specs.Rules.{test, first, first_of, Computes};

// A rule that is broken, by its number, and the trade, holiday or record that it is about.
#[derive(Clone, Copy)]
pub struct Fault {
    pub rule: u64,
    pub place: u64,
}

// A rule at a place, by what its test says: nothing where it passes.
pub fn tested(rule: u64, place: u64, passes: bool) -> Option<Fault>
    ensures { result ≡ test rule place passes }
{
    if passes {
        None
    } else {
        Some(Fault { rule, place })
    }
}

// The first of some rules at one place that is broken: each is its number and what its test says.
pub fn broken(place: u64, rules: &[(u64, bool)]) -> Option<Fault>
    ensures { result ≡ first (map (λ rule. test rule.0 place rule.1) rules.now) }
{
    rules.iter().find(|rule| !rule.1).map(|rule| Fault {
        rule: rule.0,
        place,
    })
}

// The first of some items that breaks a rule. The test of each takes its place, which is counted on from a number, the item and the items after it.
pub fn first_of<T, F: Fn(u64, &T, &[T]) -> Option<Fault>>(
    items: &[T],
    from: u64,
    test: F,
) -> Option<Fault>
    requires fits { from + length items.now < 2 ^ 64 }
    requires callable { (i : ℕ) (x : _) (later : _) → i < from + length items.now → F.pre test i x later }
    ensures { (f : ℕ → T → List T → Option Fault) → Computes F.Fn test (from + length items.now) f → result ≡ first_of f from items.now }
{
    let mut place = from;
    let mut left = items;
    while let [item, later @ ..] = left {
        let found = test(place, item, later);
        if found.is_some() {
            return found;
        }
        place += 1;
        left = later;
    }
    None
}
