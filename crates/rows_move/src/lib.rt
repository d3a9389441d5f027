// Moves the table for an accepted message: takes off what it lists, and brings its new lots.
#![tactic(auto)]

ghost use Rattle.std.specs.Prelude.{◌≡◌, ◌++◌, ◌≤◌, length, take};
ghost use Rattle.rows_move.specs.Moves.{remaining, bringing, filled, Movable};

use book::Pool;

// Closes the table up over the records that a message takes off, and gives back how many are left.
fn take_off(pools: &mut [Pool], live: usize, body: &[u8], marks: &[u8]) -> usize
    requires { Movable body.now pools.old live marks.now }
    ensures { (result ≡ length (remaining body.now (take live pools.old)))
        × (pools.new ≡ filled (length pools.old) (remaining body.now (take live pools.old))) }
{
    if header::message_type(body).lists_lots() {
        rows::close_up(pools, live, marks)
    } else {
        live
    }
}

// Moves the table for an accepted message, and gives back how many records are live after it. What it brings is staged before any record moves.
pub fn move_table(
    pools: &mut [Pool],
    live: usize,
    body: &[u8],
    marks: &[u8],
    message: u64,
    trade: u64,
) -> usize
    requires movable { Movable body.now pools.old live marks.now }
    requires trade_in_bounds { length (remaining body.now (take live pools.old) ++ bringing body.now message trade) ≤ length pools.old }
    ensures { (result ≡ length (remaining body.now (take live pools.old) ++ bringing body.now message trade))
        × (pools.new ≡ filled (length pools.old) (remaining body.now (take live pools.old) ++ bringing body.now message trade)) }
{
    if !header::message_type(body).brings_lots() {
        return take_off(pools, live, body, marks);
    }
    let staged = rows_bring::stage(body);
    let left = take_off(pools, live, body, marks);
    rows_bring::put_lots(pools, left, body, &staged, message, trade)
}
