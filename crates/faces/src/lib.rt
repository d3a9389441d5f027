// Whether the faces of a message's new pools are within their limits (check 34), and the arithmetic of those of a lot (35).
#![tactic(auto)]

ghost use Rattle.std.specs.Prelude.{◌≡◌};
ghost use Rattle.layout.specs.Details.{details};
ghost use Rattle.faces.specs.Faces.{face_fails, faces_fail, good_lot_fails};

use layout::Detail;

// The highest original face, in whole dollars.
pub const ORIGINAL_MOST: u64 = 50000000;

// 34 of one pool.
#[tactic(auto, unfolding(crate::specs::Faces::face_fails))]
pub fn face_fails(d: Detail, least: u64) -> bool
    ensures { result ≡ face_fails least d }
{
    let current = fields::read_number(&d.current, 0, layout::CURRENT_FACE.width);
    let original = fields::read_number(&d.matched.original, 0, layout::ORIGINAL_FACE.width);
    !(current.is_some() && original.is_some_and(|n| (least..=ORIGINAL_MOST).contains(&n)))
}

// 34 of a message: some new pool fails it.
pub fn faces_fail(body: &[u8], least: u64) -> bool
    ensures { result ≡ faces_fail least (details body.now) }
{
    detail_reader::pools(body)
        .filter(|d| terminator::is_new(*d))
        .any(|d| face_fails(d, least))
}

// 35's arithmetic: the sum of a good lot's current faces, its pools and its millions against the limits. A product of two numbers of 64 bits fits 128.
#[tactic(auto, unfolding(crate::specs::Faces::good_lot_fails))]
pub fn good_lot_fails(
    sum: u64,
    pools: u64,
    millions: u64,
    variance: u64,
    pools_a_million: u64,
) -> bool
    ensures { result ≡ good_lot_fails sum pools millions variance pools_a_million }
{
    let millions = u128::from(millions);
    let weight = millions * u128::from(terminator::MILLION_CENTS);
    u128::from(variance) * millions < u128::from(sum).abs_diff(weight)
        || u128::from(pools_a_million) * millions < u128::from(pools)
}
