// Lends the pools of a message to Rust and C, its terminators, lots, groups and faces: each exported function writes its numbers at the head of a lent slice.
#![tactic(auto)]

ghost use Rattle.std.specs.Prelude.{◌≡◌};
ghost use Rattle.lists.specs.Lists.{pasted};
ghost use Rattle.layout.specs.Details.{details};
ghost use Rattle.compare_pools.specs.Numbers.{terminator_numbers, terminator_in, lot_numbers, lot_from, form_numbers, sum_numbers, face_numbers};

use terminator::{LotHead, Terminator};

fn terminator_numbers(t: Terminator) -> [u64; 2]
    ensures { result ≡ terminator_numbers t }
{
    match t {
        Terminator::Middle => [0, 0],
        Terminator::BadMiddle => [1, 0],
        Terminator::GoodEnd(n) => [2, n],
        Terminator::OddEnd => [3, 0],
        Terminator::BadEnd => [4, 0],
        Terminator::Wrong => [5, 0],
    }
}

// The terminator in bytes of any length: what is not four bytes is wrong.
#[tactic(auto, unfolding(crate::specs::Numbers::terminator_in))]
fn terminator_in(s: &[u8]) -> Terminator
    ensures { result ≡ terminator_in s.now }
{
    match <[u8; 4]>::try_from(s) {
        Ok(four) => Terminator::from(four),
        Err(_) => Terminator::Wrong,
    }
}

// Writes what the terminator in some bytes says, and the millions of the good lot that it ends.
#[unsafe(no_mangle)]
pub extern "C" fn rhoikandra_terminator(s: &[u8], out: &mut [u64])
    ensures { out.new ≡ pasted out.old 0 (terminator_numbers (terminator_in s.now)) }
{
    let terminator = terminator_in(s);
    output::put(out, 0, &terminator_numbers(terminator));
}

// Writes whether the lots of a body are formed as an ON's and as a CC's (19), and whether a CC's groups are formed (20) and balanced (21).
#[tactic(auto, unfolding(crate::specs::Numbers::form_numbers, exports_numbers::specs::Bit::bit))]
#[unsafe(no_mangle)]
pub extern "C" fn rhoikandra_forms(body: &[u8], out: &mut [u64])
    ensures { out.new ≡ pasted out.old 0 (form_numbers (details body.now)) }
{
    let judged = groups::groups_of(body);
    let four = [
        u64::from(lots::lots_formed(body, false)),
        u64::from(lots::lots_formed(body, true)),
        u64::from(judged.formed),
        u64::from(judged.balanced),
    ];
    output::put(out, 0, &four);
}

// Writes the number of pools of a body, 0 where its length fails 10, the number of replacement pools (22), the sum of the good millions (33) and the weight of the new lots in cents (38).
#[tactic(auto, unfolding(crate::specs::Numbers::sum_numbers))]
#[unsafe(no_mangle)]
pub extern "C" fn rhoikandra_sums(body: &[u8], out: &mut [u64])
    ensures { out.new ≡ pasted out.old 0 (sum_numbers body.now) }
{
    let four = [
        layout::pool_count(body) as u64,
        lots::replacement_count(body) as u64,
        lots::good_millions(body),
        new_lots::new_weight(body),
    ];
    output::put(out, 0, &four);
}

// A lot's six numbers; the kinds are counted from 0 here, and from 1 in a record.
fn lot_numbers(l: Option<LotHead>) -> [u64; 6]
    ensures { result ≡ lot_numbers l }
{
    match l {
        Some(lot) => [
            1,
            u64::from(lot.one),
            lot.kind.number() - 1,
            lot.millions,
            lot.last as u64,
            lot.weight,
        ],
        None => [0; 6],
    }
}

// Writes the lot that begins at a pool.
#[unsafe(no_mangle)]
pub extern "C" fn rhoikandra_lot_at(body: &[u8], first: usize, out: &mut [u64])
    ensures { out.new ≡ pasted out.old 0 (lot_numbers (lot_from body.now first)) }
{
    let lot = lots::lot_at(body, first);
    output::put(out, 0, &lot_numbers(lot));
}

// Writes whether a new pool's faces fail 34, and whether a new lot fails 35.
#[tactic(auto, unfolding(crate::specs::Numbers::face_numbers, exports_numbers::specs::Bit::bit))]
#[unsafe(no_mangle)]
pub extern "C" fn rhoikandra_faces(
    body: &[u8],
    least: u64,
    variance: u64,
    pools: u64,
    out: &mut [u64],
)
    ensures { out.new ≡ pasted out.old 0 (face_numbers least variance pools (details body.now)) }
{
    let faces_fail = u64::from(faces::faces_fail(body, least));
    let lots_fail = u64::from(new_lots::lots_fail(body, variance, pools));
    output::put(out, 0, &[faces_fail, lots_fail]);
}
