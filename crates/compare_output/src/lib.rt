// Lends what goes out to Rust and C: each exported function writes into a lent slice.
#![tactic(auto)]

ghost use Rattle.std.specs.Prelude.{◌≡◌, ◌≤◌, length};
ghost use Rattle.compare_output.specs.Said.{aa_said, tx_said, last_stamp, with_aa, with_tx, stamped};

use acknowledgment::{Acknowledged, Stamp};
use sequence::{Inbound, Outbound};

// What an AA is told: subscriber, connection, internal ID, time bytes and original sequence.
const AA_SAID: usize = 36;

const CONNECTION_AT: usize = 4;

const INTERNAL_AT: usize = 8;

const TIME_AT: usize = 24;

const ORIGINAL_AT: usize = 30;

// What a TX is told: subscriber and connection.
const TX_SAID: usize = 8;

// The stamp of the last frame: its number, and the subscriber and connection that are said.
fn stamp_of(last: u32, said: &[u8]) -> Stamp
    requires { tx_said ≤ length said.now }
    ensures { result ≡ last_stamp last said.now }
{
    Stamp {
        number: Outbound(last),
        subscriber: layout::bytes_at(said, 0),
        connection: layout::bytes_at(said, CONNECTION_AT),
    }
}

// Writes an AA from at and gives the number that it is stamped with.
#[tactic(auto, unfolding(crate::specs::Said::with_aa, crate::specs::Said::stamped))]
#[unsafe(no_mangle)]
pub extern "C" fn rhoikandra_put_aa(
    out: &mut [u8],
    at: usize,
    last: u32,
    said: &[u8],
    message: u64,
    code: u64,
) -> u32
    ensures { (out.new ≡ with_aa out.old at last said.now message code) × (result ≡ stamped aa_said said.now last) }
{
    if said.len() != AA_SAID {
        return last;
    }
    let a = Acknowledged {
        internal: layout::bytes_at(said, INTERNAL_AT),
        message,
        code,
        time: layout::bytes_at(said, TIME_AT),
        original: layout::bytes_at(said, ORIGINAL_AT),
    };
    let stamp = acknowledgment::put_aa(out, at, stamp_of(last, said), a);
    stamp.number.0
}

// Writes a TX from at and gives the number that it is stamped with.
#[tactic(auto, unfolding(crate::specs::Said::with_tx, crate::specs::Said::stamped))]
#[unsafe(no_mangle)]
pub extern "C" fn rhoikandra_put_tx(
    out: &mut [u8],
    at: usize,
    last: u32,
    said: &[u8],
    expected: u32,
    received: u32,
) -> u32
    ensures { (out.new ≡ with_tx out.old at last said.now expected received) × (result ≡ stamped tx_said said.now last) }
{
    if said.len() != TX_SAID {
        return last;
    }
    let stamp = acknowledgment::put_tx(
        out,
        at,
        stamp_of(last, said),
        Inbound(expected),
        Inbound(received),
    );
    stamp.number.0
}
