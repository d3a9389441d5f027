// Writes what goes out: an AA that answers a message, and a TX that tells of a gap in the sequence.
#![tactic(auto)]

ghost use Rattle.std.specs.Prelude.{◌≡◌};
ghost use Rattle.lists.specs.Lists.{pasted};
ghost use Rattle.output.specs.Output.{digits_of};
ghost use Rattle.acknowledgment.specs.Frames.{sequence_width, next_stamp, opening, message_id, aa_bytes, text, tx_bytes};

use sequence::{Inbound, Outbound};

// The bytes of a time.
pub const TIME_WIDTH: usize = 6;

// What every frame is stamped with: our number, subscriber and connection.
#[derive(Clone, Copy, PartialEq, Eq)]
pub struct Stamp {
    pub number: Outbound,
    pub subscriber: [u8; 4],
    pub connection: [u8; 4],
}

impl Stamp {
    // The stamp of the next frame, whose number is one more.
    pub fn next(self) -> Stamp
        ensures { result ≡ next_stamp self }
    {
        let mut stamp = self;
        stamp.number = self.number.next();
        stamp
    }
}

// What an AA says of a message: its internal ID, its message ID, its code (0 is accepted), the time bytes lent, and its own sequence number as it came.
#[derive(Clone, Copy, PartialEq, Eq)]
pub struct Acknowledged {
    pub internal: [u8; 16],
    pub message: u64,
    pub code: u64,
    pub time: [u8; TIME_WIDTH],
    pub original: [u8; 6],
}

pub const AA_LENGTH: usize = 64;

pub const TX_LENGTH: usize = 153;

const OPENING_LENGTH: usize = 20;

const TEXT_LENGTH: usize = 130;

const SEQUENCE_WIDTH: usize = 6;

const MESSAGE_WIDTH: usize = 11;

const CODE_WIDTH: usize = 4;

const START: [u8; 1] = [2];

const END: [u8; 1] = [3];

const AA: [u8; 2] = [b'A', b'A'];

const TX: [u8; 2] = [b'T', b'X'];

const ACCEPTED: u64 = 0;

// Where the parts of an opening stand.
const KIND_AT: usize = 1;

const NUMBER_AT: usize = 3;

const VERSION_AT: usize = 9;

const SUBSCRIBER_AT: usize = 12;

const CONNECTION_AT: usize = 16;

// Where the parts of an AA stand.
const INTERNAL_AT: usize = 20;

const MESSAGE_AT: usize = 36;

const CODE_AT: usize = 47;

const TIME_AT: usize = 51;

const ORIGINAL_AT: usize = 57;

const AA_END_AT: usize = 63;

// Where the parts of a TX stand.
const CATEGORY_AT: usize = 20;

const TEXT_AT: usize = 22;

const TX_END_AT: usize = 152;

// Where the parts of a text stand.
const EXPECTED_AT: usize = 15;

const BETWEEN_AT: usize = 21;

const RECEIVED_AT: usize = 38;

const BLANKS_AT: usize = 44;

const BLANKS_LENGTH: usize = TEXT_LENGTH - BLANKS_AT;

// Writes a sequence number from at.
fn put_sequence(out: &mut [u8], at: usize, number: u32)
    ensures { out.new ≡ pasted out.old at (digits_of sequence_width number) }
{
    output::put_digits(out, at, SEQUENCE_WIDTH, u64::from(number));
}

// What every frame begins with.
fn opening_of(kind: [u8; 2], stamp: Stamp) -> [u8; OPENING_LENGTH]
    ensures { result ≡ opening kind stamp }
{
    let mut frame = [0; OPENING_LENGTH];
    output::put(&mut frame, 0, &START);
    output::put(&mut frame, KIND_AT, &kind);
    put_sequence(&mut frame, NUMBER_AT, stamp.number.0);
    output::put(&mut frame, VERSION_AT, b"002");
    output::put(&mut frame, SUBSCRIBER_AT, &stamp.subscriber);
    output::put(&mut frame, CONNECTION_AT, &stamp.connection);
    frame
}

// Writes the message ID of an accepted message, or blanks.
#[tactic(auto, unfolding(crate::specs::Frames::message_id))]
fn put_message_id(out: &mut [u8], at: usize, message: u64, code: u64)
    ensures { out.new ≡ pasted out.old at (message_id message code) }
{
    if code == ACCEPTED {
        output::put_digits(out, at, MESSAGE_WIDTH, message);
    } else {
        output::put_blanks(out, at, MESSAGE_WIDTH);
    }
}

// The whole AA.
fn aa_frame(stamp: Stamp, a: Acknowledged) -> [u8; AA_LENGTH]
    ensures { result ≡ aa_bytes stamp a }
{
    let mut frame = [0; AA_LENGTH];
    output::put(&mut frame, 0, &opening_of(AA, stamp));
    output::put(&mut frame, INTERNAL_AT, &a.internal);
    put_message_id(&mut frame, MESSAGE_AT, a.message, a.code);
    output::put_digits(&mut frame, CODE_AT, CODE_WIDTH, a.code);
    output::put(&mut frame, TIME_AT, &a.time);
    output::put(&mut frame, ORIGINAL_AT, &a.original);
    output::put(&mut frame, AA_END_AT, &END);
    frame
}

// The text of a TX.
fn gap_text(expected: Inbound, received: Inbound) -> [u8; TEXT_LENGTH]
    ensures { result ≡ text expected received }
{
    let mut words = [0; TEXT_LENGTH];
    output::put(&mut words, 0, b"EXPECTED SEQ # ");
    put_sequence(&mut words, EXPECTED_AT, expected.0);
    output::put(&mut words, BETWEEN_AT, b", RECEIVED SEQ # ");
    put_sequence(&mut words, RECEIVED_AT, received.0);
    output::put_blanks(&mut words, BLANKS_AT, BLANKS_LENGTH);
    words
}

// The whole TX.
fn tx_frame(stamp: Stamp, expected: Inbound, received: Inbound) -> [u8; TX_LENGTH]
    ensures { result ≡ tx_bytes stamp expected received }
{
    let mut frame = [0; TX_LENGTH];
    output::put(&mut frame, 0, &opening_of(TX, stamp));
    output::put(&mut frame, CATEGORY_AT, b"GD");
    output::put(&mut frame, TEXT_AT, &gap_text(expected, received));
    output::put(&mut frame, TX_END_AT, &END);
    frame
}

// Writes an AA from at and gives back its stamp, the last one used from then on. Where the AA does not fit, nothing is written.
pub fn put_aa(out: &mut [u8], at: usize, last: Stamp, a: Acknowledged) -> Stamp
    ensures written { out.new ≡ pasted out.old at (aa_bytes (next_stamp last) a) }
    ensures stamped { result ≡ next_stamp last }
{
    let stamp = last.next();
    output::put(out, at, &aa_frame(stamp, a));
    stamp
}

// Writes a TX from at and gives back its stamp, the last one used from then on. Where the TX does not fit, nothing is written.
pub fn put_tx(out: &mut [u8], at: usize, last: Stamp, expected: Inbound, received: Inbound) -> Stamp
    ensures written { out.new ≡ pasted out.old at (tx_bytes (next_stamp last) expected received) }
    ensures stamped { result ≡ next_stamp last }
{
    let stamp = last.next();
    output::put(out, at, &tx_frame(stamp, expected, received));
    stamp
}
