// What the terminator of one pool says, and the lot that ends with it: its kind, millions and weight.
#![tactic(auto)]

ghost use Rattle.std.specs.Prelude.{◌≡◌, ◌≤◌};
ghost use Rattle.terminator.specs.Terminators.{millions_most, positions, terminator_of, is_end, is_wrong, is_bad, kind_of, kind_number, millions_of, is_new, is_canceled, is_replacement};
ghost use Rattle.terminator.specs.Lots.{current_cents, weight_of};
ghost use Rattle.terminator.specs.Reading.{lot_ended};

use layout::Detail;

// What positions two to four say.
#[derive(Clone, Copy, PartialEq, Eq)]
pub enum Terminator {
    Middle,
    BadMiddle,
    GoodEnd(u64),
    OddEnd,
    BadEnd,
    Wrong,
}

// The three kinds of lots, each with its number in a record.
#[derive(Clone, Copy, PartialEq, Eq)]
pub enum Kind {
    Good = 1,
    Odd = 2,
    Bad = 3,
}

// Whether a CC's groups are formed (20) and balanced (21).
#[derive(Clone, Copy, PartialEq, Eq)]
pub struct Groups {
    pub formed: bool,
    pub balanced: bool,
}

// A lot of a message: position one, kind, millions, its first and last pool by index, and its weight in cents.
#[derive(Clone, Copy, PartialEq, Eq)]
pub struct LotHead {
    pub one: u8,
    pub kind: Kind,
    pub millions: u64,
    pub first: usize,
    pub last: usize,
    pub weight: u64,
}

// Position one of a new, of a canceled and of a replacement pool.
pub const NEW: u8 = b'0';

pub const CANCELED: u8 = b'6';

pub const REPLACEMENT: u8 = b'7';

// The cents of a million dollars.
pub const MILLION_CENTS: u64 = 100000000;

impl Kind {
    // The number that a record has for the kind.
    pub fn number(self) -> u64
        ensures { result ≡ kind_number self }
    {
        self as u64
    }
}

impl Terminator {
    // Whether it ends its lot.
    pub fn is_end(self) -> bool
        ensures { result ≡ is_end self }
    {
        matches!(
            self,
            Terminator::GoodEnd(_) | Terminator::OddEnd | Terminator::BadEnd
        )
    }

    pub fn is_wrong(self) -> bool
        ensures { result ≡ is_wrong self }
    {
        matches!(self, Terminator::Wrong)
    }

    // Whether it stands in a bad-delivery lot.
    pub fn is_bad(self) -> bool
        ensures { result ≡ is_bad self }
    {
        matches!(self, Terminator::BadMiddle | Terminator::BadEnd)
    }

    // The kind of the lot that it ends.
    pub fn kind(self) -> Kind
        ensures { result ≡ kind_of self }
    {
        match self {
            Terminator::GoodEnd(_) => Kind::Good,
            Terminator::BadEnd => Kind::Bad,
            _ => Kind::Odd,
        }
    }

    // The millions of a good lot, and 0 of any other.
    pub fn millions(self) -> u64
        ensures { result ≡ millions_of self }
    {
        match self {
            Terminator::GoodEnd(millions) => millions,
            _ => 0,
        }
    }

    // The weight in cents of the lot that it ends, whose current faces have a sum.
    pub fn weight(self, faces: u64) -> u64
        requires { millions_of self ≤ millions_most }
        ensures { result ≡ weight_of (kind_of self) (millions_of self) faces }
    {
        match self {
            Terminator::GoodEnd(millions) => millions * MILLION_CENTS,
            _ => faces,
        }
    }
}

// What positions two to four say, by the number that they make.
#[tactic(auto, using(std::proofs::lemmas::Bool::Decides::nat_tests), unfolding(crate::specs::Terminators::positions))]
pub fn positions_two_to_four(n: u64) -> Terminator
    ensures { result ≡ positions n }
{
    match n {
        0 => Terminator::Middle,
        1..=99 => Terminator::GoodEnd(n),
        888 => Terminator::BadMiddle,
        889 => Terminator::BadEnd,
        999 => Terminator::OddEnd,
        _ => Terminator::Wrong,
    }
}

// What a terminator says after its position one.
impl From<[u8; 4]> for Terminator {
    ghost from_gives = { λ bytes t. t ≡ terminator_of bytes };

    #[tactic(auto, unfolding(crate::specs::Terminators::terminator_of))]
    fn from(bytes: [u8; 4]) -> Terminator {
        match fields::read_number(&bytes, 1, 3) {
            Some(n) => positions_two_to_four(n),
            None => Terminator::Wrong,
        }
    }
}

// Whether a CC cancels the pool.
pub fn is_canceled(d: Detail) -> bool
    ensures { result ≡ is_canceled d }
{
    d.terminator[0] == CANCELED
}

// Whether the pool replaces others in a CC.
pub fn is_replacement(d: Detail) -> bool
    ensures { result ≡ is_replacement d }
{
    d.terminator[0] == REPLACEMENT
}

// Whether the pool is new: one of an ON, or of a CC and not canceled.
pub fn is_new(d: Detail) -> bool
    ensures { result ≡ is_new d }
{
    !is_canceled(d)
}

// A pool's current face in cents, 0 where it is not digits.
#[tactic(auto, unfolding(crate::specs::Lots::current_cents))]
pub fn current_cents(d: Detail) -> u64
    ensures { result ≡ current_cents d }
{
    fields::read_number(&d.current, 0, layout::CURRENT_FACE.width).unwrap_or(0)
}

// A lot that ends with a pool.
#[tactic(auto, using(crate::proofs::Marks::millions_small), unfolding(crate::specs::Reading::lot_ended))]
pub fn lot_ended(d: Detail, first: usize, last: usize, faces: u64) -> LotHead
    ensures { result ≡ lot_ended d first last faces }
{
    let t = Terminator::from(d.terminator);
    LotHead {
        one: d.terminator[0],
        kind: t.kind(),
        millions: t.millions(),
        first,
        last,
        weight: t.weight(faces),
    }
}
