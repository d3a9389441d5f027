// A day: every whole frame of a tape is put to a book over a lent table, one after another, and the accepted ones are counted.
#![tactic(auto)]

ghost use Rattle.day.specs.Days.{Passes};

use book::{Book, Caller, Pool};
use framing::Frames;

// The book after the day, the frames accepted, and all other whole frames.
#[derive(Clone, Copy)]
pub struct Day {
    pub book: Book,
    pub accepted: u64,
    pub others: u64,
}

// The program's time bytes, 000000, and a seed that is always the same: a tape is read alone.
const MIDNIGHT: Caller = Caller {
    time: [b'0'; acknowledgment::TIME_WIDTH],
    seed: 0,
};

// The day of a tape. What goes out is written and dropped.
#[tactic(auto, using(crate::proofs::Turning::ends))]
pub fn run_day(book: Book, pools: &mut [Pool], tape: &[u8]) -> Day
    ensures { Passes book pools.old tape.now result pools.new }
{
    let mut day = Day {
        book,
        accepted: 0,
        others: 0,
    };
    for frame in Frames::new(tape) {
        let body = &tape[frame.start..frame.end];
        let mut out = [0; book::ROOM_LEAST];
        let stepped = table_step::step(day.book, pools, body, MIDNIGHT, &mut out);
        day.book = stepped.book;
        if stepped.answer.is_accepted() {
            day.accepted += 1;
        } else {
            day.others += 1;
        }
    }
    day
}
