// Decides where the next whole frame of a tape lies: hex 02, a body, hex 03.
#![tactic(auto)]

ghost use Rattle.std.specs.Prelude.{◌≡◌, ◌≤◌, length};
ghost use Rattle.std.specs.Iterator.{item_count};
ghost use Rattle.framing.specs.Framing.{Finds};
ghost use Rattle.framing.specs.Following.{frames_of, tape_of, left, gives};

// Hex 02 starts a frame.
const START: u8 = 2;
// Hex 03 ends a started frame.
const END: u8 = 3;

// A whole frame's body, from start up to end, and the place after its 03.
#[derive(Clone, Copy, PartialEq, Eq)]
pub struct Frame {
    pub start: usize,
    pub end: usize,
    pub next: usize,
}

// The next frame, where there is one, and the count of bytes dropped on the way to it.
#[derive(Clone, Copy, PartialEq, Eq)]
pub struct Found {
    pub frame: Option<Frame>,
    pub dropped: usize,
}

// The next whole frame from a place on. Dropped are the bytes before its 02, or all where there is none.
#[tactic(auto, unfolding(crate::specs::Framing::next_frame))]
pub fn next_frame(tape: &[u8], at: usize) -> Found
    ensures { Finds tape.now at result }
{
    let mut started = None;
    for i in at..tape.len() {
        match tape[i] {
            START => started = Some(i),
            END => {
                if let Some(mark) = started {
                    return Found {
                        frame: Some(Frame {
                            start: mark + 1,
                            end: i,
                            next: i + 1,
                        }),
                        dropped: mark - at,
                    };
                }
            },
            _ => {},
        }
    }
    Found {
        frame: None,
        dropped: tape.len().saturating_sub(at),
    }
}

// The whole frames of a tape, one after another, from a place on.
#[derive(Drop)]
pub struct Frames<'a> {
    tape: &'a [u8],
    at: usize,
}

impl Frames<'_> {
    // The whole frames of a tape.
    #[tactic(auto, using(crate::proofs::Following::frames_few))]
    pub fn new(tape: &[u8]) -> Frames<'_>
        ensures same_tape { tape_of result ≡ tape.now }
        ensures all { left result ≡ frames_of tape.now }
        ensures few { length (left result) ≤ length tape.now }
    {
        Frames { tape, at: 0 }
    }
}

impl Iterator for Frames<'_> {
    type Item = Frame;

    ghost next_gives = { gives };

    ghost remaining = { item_count left };

    #[tactic(auto, using(crate::proofs::Following::frames_some, crate::proofs::Following::frames_none, crate::proofs::Ahead::frame_ahead))]
    fn next(&mut self) -> Option<Frame> {
        let frame = next_frame(self.tape, self.at).frame?;
        self.at = frame.next;
        Some(frame)
    }
}
