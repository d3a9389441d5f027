// The matched fields of pools compared, and spread over buckets.
#![tactic(auto)]

ghost use Rattle.std.specs.Prelude.{◌≡◌, ◌+◌, ◌*◌, ◌/◌, ◌%◌, ◌<◌};
ghost use Rattle.book.specs.Records.{same_fields};
ghost use Rattle.rows_keys.specs.Keys.{half, spread_most, Spreads, bucket_of, bucket_count};

use layout::Matched;

// Every bucket is below this number.
pub const BUCKETS: usize = 4096;

// A half of a word is below this number.
const HALF: u64 = 4294967296;

// Every number that fields are spread by is below this one, 2^29.
const SPREAD_MOST: u64 = 536870912;

// A prime just over a half.
const PRIME: u64 = 4294967311;

// Whether matched fields are equal: as three words, without a branch.
#[tactic(auto, using(rows::proofs::WordLaws::words_same))]
pub fn same_fields(a: &Matched, b: &Matched) -> bool
    ensures { result ≡ same_fields a.now b.now }
{
    rows::words(a) == rows::words(b)
}

// A number whose every bit hangs on every bit of x: the mixing of splitmix64.
fn mixed(x: u64) -> u64 {
    let a = (x ^ (x >> 30)).wrapping_mul(13787848793156543929);
    let b = (a ^ (a >> 27)).wrapping_mul(10723151780598845931);
    b ^ (b >> 31)
}

// The low 29 bits.
fn low(x: u64) -> u64
    ensures { result < spread_most }
{
    x % SPREAD_MOST
}

// The high 29 bits.
fn high(x: u64) -> u64
    ensures { result < spread_most }
{
    x >> 35
}

// A spread number by one half of a word and another by the other.
fn shares(x: u64, y: u64, word: u64) -> u64
    requires { (x < spread_most) × (y < spread_most) }
    ensures { (result ≡ x * (word % half) + y * (word / half)) × (result < 4611686018427387904) }
{
    x * (word % HALF) + y * (word / HALF)
}

// The six numbers that matched fields are spread by.
#[derive(Clone, Copy)]
pub struct Spread {
    pub numbers: [u64; 6],
    pub ghost small: { Spreads numbers },
}

impl Spread {
    // Those of a seed: which they are is nobody's business.
    pub fn new(seed: u64) -> Spread
        ensures { Spreads result.numbers }
    {
        let a = mixed(seed.wrapping_add(11400714819323198485));
        let b = mixed(seed.wrapping_add(4354685564936845354));
        let c = mixed(seed.wrapping_add(15755400384260043839));
        Spread {
            numbers: [low(a), high(a), low(b), high(b), low(c), high(c)],
        }
    }

    // The bucket of matched fields. To whoever does not know the spread numbers two that differ share one with a chance of at most about 2^-8, whatever they are: of six spread numbers one stands by a half that differs, and each of the 2^21 differences of the sums that end in one bucket leaves it one value of 2^29.
    pub fn bucket(&self, f: &Matched) -> usize
        ensures { (result ≡ bucket_of self.now.numbers f.now) × (result < bucket_count) }
    {
        let n = &self.numbers;
        let w = rows::words(f);
        let sum = shares(n[0], n[1], w[0]) + shares(n[2], n[3], w[1]) + shares(n[4], n[5], w[2]);
        (sum % PRIME) as usize % BUCKETS
    }
}
