// The detail reader: it holds a body and the place of a detail in it, and goes through the body detail by detail.
#![tactic(auto)]

ghost use Rattle.std.specs.Prelude.{◌≡◌, ◌≤◌, length};
ghost use Rattle.std.specs.Iterator.{item_count};
ghost use Rattle.layout.specs.Columns.{header_width};
ghost use Rattle.layout.specs.Details.{details, pools_max};
ghost use Rattle.detail_reader.specs.Left.{details_left, gives};

use layout::Detail;

// A body and the place in it where the next detail stands.
#[derive(Clone, Copy)]
pub struct Details<'a> {
    pub body: &'a [u8],
    pub at: usize,
}

// A reader at the first detail of a body.
pub fn new<'a>(body: &'a [u8]) -> Details<'a>
    ensures { (result.body ≡ body.entry) × (result.at ≡ header_width) }
{
    Details {
        body,
        at: layout::HEADER_WIDTH,
    }
}

// The pools of a body, one after another: none where its length fails check 10.
#[tactic(auto, using(crate::proofs::Left::pools_left))]
pub fn pools<'a>(body: &'a [u8]) -> Details<'a>
    ensures all { details_left result ≡ details body.entry.now }
    ensures few { length (details_left result) ≤ pools_max }
{
    if layout::pool_count(body) == 0 {
        Details {
            body,
            at: body.len(),
        }
    } else {
        new(body)
    }
}

impl<'a> Iterator for Details<'a> {
    type Item = Detail;

    ghost next_gives = { gives };

    ghost remaining = { item_count details_left };

    // The detail at the reader's place, and the reader behind it, or nothing where no whole detail is left.
    #[tactic(auto, using(crate::proofs::Left::turns_left))]
    fn next(&mut self) -> Option<Detail> {
        let step = layout::next_detail(self.body, self.at)?;
        self.at = step.next;
        Some(step.detail)
    }
}
