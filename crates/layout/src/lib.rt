// The columns of a message body: each header field and each field of a pool detail, named once, and the readers that go by them.
#![tactic(auto)]

ghost use Rattle.std.specs.Prelude.{◌≡◌, ◌+◌, ◌≤◌, ◌<◌, length};
ghost use Rattle.layout.specs.Columns.{bytes_in, number_in, header, detail_width};
ghost use Rattle.layout.specs.Details.{pool_count, next_detail, detail_at, place_of};
ghost use Rattle.lists.specs.Lists.{part, same};

// A column by its first byte and its width.
#[derive(Clone, Copy, PartialEq, Eq)]
pub struct Column {
    pub at: usize,
    pub width: usize,
}

pub const HEADER_WIDTH: usize = 187;

pub const MESSAGE_TYPE: Column = Column { at: 0, width: 2 };

pub const SEQUENCE: Column = Column { at: 2, width: 6 };

pub const VERSION: Column = Column { at: 8, width: 3 };

pub const SUBSCRIBER: Column = Column { at: 11, width: 4 };

pub const CONNECTION: Column = Column { at: 15, width: 4 };

pub const SUBMITTER: Column = Column { at: 19, width: 4 };

pub const CONTRA: Column = Column { at: 23, width: 4 };

pub const CUSIP: Column = Column { at: 27, width: 9 };

pub const FILLER_ONE: Column = Column { at: 36, width: 1 };

pub const PAR: Column = Column { at: 37, width: 11 };

pub const FILLER_TWO: Column = Column { at: 48, width: 10 };

pub const PRICE: Column = Column { at: 58, width: 12 };

pub const GDMM: Column = Column { at: 70, width: 4 };

pub const TRADE_DATE: Column = Column { at: 74, width: 8 };

pub const SETTLEMENT: Column = Column { at: 82, width: 8 };

pub const DELIVERY: Column = Column { at: 90, width: 8 };

pub const INTERNAL_ID: Column = Column { at: 98, width: 16 };

pub const SUBACCOUNT: Column = Column { at: 114, width: 4 };

pub const REASON: Column = Column { at: 118, width: 4 };

pub const TARGET: Column = Column { at: 122, width: 11 };

pub const CROSS_REFERENCE: Column = Column { at: 133, width: 15 };

pub const FILLER_THREE: Column = Column { at: 148, width: 4 };

pub const POS_DUP: Column = Column { at: 152, width: 1 };

pub const SPECIAL: Column = Column { at: 153, width: 30 };

pub const NUMBER_OF_POOLS: Column = Column { at: 183, width: 4 };

// Columns of a pool detail, counted from its own first byte.
pub const DETAIL_WIDTH: usize = 199;

pub const LOT_ID: Column = Column { at: 0, width: 6 };

pub const POOL_NUMBER: Column = Column { at: 8, width: 7 };

pub const ORIGINAL_FACE: Column = Column { at: 15, width: 9 };

pub const CURRENT_FACE: Column = Column { at: 79, width: 11 };

pub const TERMINATOR: Column = Column { at: 122, width: 4 };

// The most pools of a message.
pub const POOLS_MAX: usize = 250;

// The header's columns in order: what ties the names above to the definitions.
pub fn header_columns() -> [Column; 25]
    ensures { result ≡ header }
{
    [
        MESSAGE_TYPE,
        SEQUENCE,
        VERSION,
        SUBSCRIBER,
        CONNECTION,
        SUBMITTER,
        CONTRA,
        CUSIP,
        FILLER_ONE,
        PAR,
        FILLER_TWO,
        PRICE,
        GDMM,
        TRADE_DATE,
        SETTLEMENT,
        DELIVERY,
        INTERNAL_ID,
        SUBACCOUNT,
        REASON,
        TARGET,
        CROSS_REFERENCE,
        FILLER_THREE,
        POS_DUP,
        SPECIAL,
        NUMBER_OF_POOLS,
    ]
}

// The bytes of a column, or those of it that a short body has.
pub fn bytes_in(body: &[u8], column: Column) -> &[u8]
    ensures { result.now ≡ bytes_in body.now column }
{
    fields::clipped(body, column.at, column.width)
}

// Whether a column holds these bytes.
pub fn column_is(body: &[u8], column: Column, bytes: &[u8]) -> bool
    ensures { result ≡ same (bytes_in body.now column) bytes.now }
{
    bytes_in(body, column) == bytes
}

// The number in a column.
pub fn number_in(body: &[u8], column: Column) -> Option<u64>
    ensures { result ≡ number_in body.now column }
{
    fields::read_number(body, column.at, column.width)
}

// The number of pools, or 0 where the body's length fails check 10.
pub fn pool_count(body: &[u8]) -> usize
    ensures { result ≡ pool_count body.now }
{
    let rest = body.len().saturating_sub(HEADER_WIDTH);
    let n = rest / DETAIL_WIDTH;
    if n <= POOLS_MAX && n * DETAIL_WIDTH == rest {
        n
    } else {
        0
    }
}

// The matched fields of a pool, in bytes: Lot-ID, pool number and original face.
#[repr(C)]
#[derive(Clone, Copy, PartialEq, Eq)]
pub struct Matched {
    pub lot: [u8; 6],
    pub pool: [u8; 7],
    pub original: [u8; 9],
}

// A pool detail as the engine reads it, in bytes.
#[derive(Clone, Copy, PartialEq, Eq)]
pub struct Detail {
    pub matched: Matched,
    pub terminator: [u8; 4],
    pub current: [u8; 11],
}

// What the detail reader gives: a detail and the place after it.
#[derive(Clone, Copy)]
pub struct Step {
    pub detail: Detail,
    pub next: usize,
}

// The N bytes from a place on.
#[tactic(auto, unfolding(lists::specs::Lists::part))]
pub fn bytes_at<const N: usize>(body: &[u8], at: usize) -> [u8; N]
    requires { at + N ≤ length body.now }
    ensures { result ≡ part body.now at N }
{
    let mut bytes = [0; N];
    bytes.copy_from_slice(&body[at..at + N]);
    bytes
}

// The detail that stands at a place of the body, where it stands there whole.
#[tactic(auto, unfolding(crate::specs::Details::detail_at))]
fn detail_at(body: &[u8], place: usize) -> Detail
    requires { place + detail_width ≤ length body.now }
    ensures { result ≡ detail_at body.now place }
{
    Detail {
        matched: Matched {
            lot: bytes_at(body, place + LOT_ID.at),
            pool: bytes_at(body, place + POOL_NUMBER.at),
            original: bytes_at(body, place + ORIGINAL_FACE.at),
        },
        terminator: bytes_at(body, place + TERMINATOR.at),
        current: bytes_at(body, place + CURRENT_FACE.at),
    }
}

// The detail reader: the detail at a place and the place after it, or nothing where no whole detail is left.
pub fn next_detail(body: &[u8], place: usize) -> Option<Step>
    ensures { result ≡ next_detail body.now place }
{
    if body.len().saturating_sub(place) < DETAIL_WIDTH {
        return None;
    }
    Some(Step {
        detail: detail_at(body, place),
        next: place + DETAIL_WIDTH,
    })
}

// The i-th pool of a body, counted from 0. Only the layers above call it, within the count.
pub fn pool_at(body: &[u8], i: usize) -> Detail
    requires { i < pool_count body.now }
    ensures { result ≡ detail_at body.now (place_of i) }
{
    detail_at(body, HEADER_WIDTH + i * DETAIL_WIDTH)
}
