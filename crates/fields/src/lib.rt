// Fixed columns of bytes: digits, blanks and codes read, and parts compared.
#![tactic(auto)]

ghost use Rattle.std.specs.Prelude.{◌≡◌, true, false, MatchOption, length};
ghost use Rattle.lists.specs.Lists.{within, part};
ghost use Rattle.fields.specs.Fields.{read_number, all_between, all_blank, all_visible, same_part};

// The widest field that read_number reads.
pub const DIGITS_MAX: usize = 19;

pub const BLANK: u8 = b' ';

pub const ZERO: u8 = b'0';

pub const NINE: u8 = b'9';

pub const VISIBLE_FIRST: u8 = 33;

pub const VISIBLE_LAST: u8 = 126;

// The n bytes from at, where they all stand there.
#[tactic(auto, unfolding(lists::specs::Lists::within, lists::specs::Lists::part))]
pub fn part(s: &[u8], at: usize, n: usize) -> Option<&[u8]>
    ensures { MatchOption result (within s.now at n ≡ false) (λ p. (within s.now at n ≡ true) × (p.now ≡ part s.now at n) × (length p.now ≡ n)) }
{
    s.get(at..)?.get(..n)
}

// The n bytes from at, or those of them that stand there.
#[tactic(auto, unfolding(lists::specs::Lists::part))]
pub fn clipped(s: &[u8], at: usize, n: usize) -> &[u8]
    ensures { result.now ≡ part s.now at n }
{
    let rest = s.get(at..).unwrap_or(&[]);
    rest.get(..n).unwrap_or(rest)
}

// The number in the width digits from at.
#[tactic(auto, using(crate::proofs::Bounds::below_ten), unfolding(crate::specs::Fields::read_number))]
pub fn read_number(s: &[u8], at: usize, width: usize) -> Option<u64>
    ensures { result ≡ read_number s.now at width }
{
    if DIGITS_MAX < width {
        return None;
    }
    let mut n = 0;
    for b in part(s, at, width)? {
        if !b.is_ascii_digit() {
            return None;
        }
        n = n * 10 + u64::from(*b - ZERO);
    }
    Some(n)
}

// Whether the n bytes from at have codes from low to high.
#[tactic(auto, unfolding(crate::specs::Fields::all_between))]
pub fn all_between(s: &[u8], at: usize, n: usize, low: u8, high: u8) -> bool
    ensures { result ≡ all_between low high s.now at n }
{
    match part(s, at, n) {
        Some(bytes) => bytes.iter().all(|b| (low..=high).contains(b)),
        None => false,
    }
}

// Whether the n bytes from at are all blank.
pub fn all_blank(s: &[u8], at: usize, n: usize) -> bool
    ensures { result ≡ all_blank s.now at n }
{
    all_between(s, at, n, BLANK, BLANK)
}

// Whether the n bytes from at have codes 33 to 126.
pub fn all_visible(s: &[u8], at: usize, n: usize) -> bool
    ensures { result ≡ all_visible s.now at n }
{
    all_between(s, at, n, VISIBLE_FIRST, VISIBLE_LAST)
}

// Whether the n bytes of a from i are those of b from j.
#[tactic(auto, unfolding(crate::specs::Fields::same_part))]
pub fn same_part(a: &[u8], i: usize, b: &[u8], j: usize, n: usize) -> bool
    ensures { result ≡ same_part a.now i b.now j n }
{
    match (part(a, i, n), part(b, j, n)) {
        (Some(x), Some(y)) => x == y,
        _ => false,
    }
}
