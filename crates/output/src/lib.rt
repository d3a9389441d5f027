// Columns written into a lent output: digits, blanks, elements of any type and parts of other slices. What does not fit is not written.
#![tactic(auto)]

ghost use Rattle.std.specs.Prelude.{◌≡◌, ◌+◌, ◌≤◌, length};
ghost use Rattle.std.specs.Bool.{OnTrue};
ghost use Rattle.lists.specs.Lists.{within, pasted};
ghost use Rattle.output.specs.Output.{digits_of, blanks, with_part};

// Whether n elements fit into out from at.
#[tactic(auto, unfolding(lists::specs::Lists::within))]
fn fits<T>(out: &[T], at: usize, n: usize) -> bool
    ensures value { result ≡ within out.now at n }
    ensures room { OnTrue result (at + n ≤ length out.now) }
{
    at <= out.len() && n <= out.len() - at
}

// Writes the last width digits of value from at. A field that does not fit is not written.
#[tactic(auto, using(crate::proofs::Written::put_out, crate::proofs::Written::put_last, crate::proofs::Written::put_none))]
pub fn put_digits(out: &mut [u8], at: usize, width: usize, value: u64)
    ensures { out.new ≡ pasted out.old at (digits_of width value) }
{
    if !fits(out, at, width) {
        return;
    }
    let mut left = value;
    for i in (at..at + width).rev() {
        out[i] = fields::ZERO + (left % 10) as u8;
        left /= 10;
    }
}

// Writes n blanks from at. A field that does not fit is not written.
#[tactic(auto, unfolding(lists::specs::Lists::pasted))]
pub fn put_blanks(out: &mut [u8], at: usize, n: usize)
    ensures { out.new ≡ pasted out.old at (blanks n) }
{
    if fits(out, at, n) {
        out[at..at + n].fill(fields::BLANK);
    }
}

// Writes the elements of s from at. Elements that do not fit are not written.
#[tactic(auto, unfolding(lists::specs::Lists::pasted))]
pub fn put<T: Copy>(out: &mut [T], at: usize, s: &[T])
    ensures { out.new ≡ pasted out.old at s.now }
{
    if fits(out, at, s.len()) {
        out[at..at + s.len()].copy_from_slice(s);
    }
}

// Writes the n bytes of s from at into out from to on. Bytes that are not there or do not fit are not written.
#[tactic(auto, unfolding(crate::specs::Output::with_part))]
pub fn put_part(out: &mut [u8], to: usize, s: &[u8], at: usize, n: usize)
    ensures { out.new ≡ with_part out.old to s.now at n }
{
    if let Some(bytes) = fields::part(s, at, n) {
        put(out, to, bytes);
    }
}
