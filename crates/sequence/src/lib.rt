// Decides what an arriving sequence number is to the line, and which outbound number comes next.
#![tactic(auto)]

ghost use Rattle.std.specs.Prelude.{◌≡◌};
ghost use Rattle.sequence.specs.Sequence.{start_line, arrival_of, line_after, sound_line, next_outbound, outbound_spent};

// A sequence number of the sender's side.
#[derive(Clone, Copy, PartialEq, Eq)]
pub struct Inbound(pub u32);

// The last outbound number used.
#[derive(Clone, Copy, PartialEq, Eq)]
pub struct Outbound(pub u32);

// The inbound side as the book keeps it: the last number received, where there is one, and the number expected.
#[derive(Clone, Copy, PartialEq, Eq)]
pub struct Line {
    pub received: Option<Inbound>,
    pub expected: Inbound,
}

// What a number is to the line.
#[derive(Clone, Copy, PartialEq, Eq)]
pub enum Arrival {
    Refused,
    Duplicate,
    Expected,
    Gap,
}

// The first number that a line expects.
const FIRST: u32 = 1;
// The highest inbound number that check 11 lets through.
pub const INBOUND_MAX: u32 = 999998;
// The highest outbound number.
pub const OUTBOUND_MAX: u32 = 999999;
// The highest last number that leaves a call its two (43).
const OUTBOUND_LAST_MAX: u32 = 999997;

impl Line {
    // A line with nothing received.
    pub fn start() -> Line
        ensures { result ≡ start_line }
    {
        Line {
            received: None,
            expected: Inbound(FIRST),
        }
    }

    // What a number is to the line.
    #[tactic(auto, unfolding(crate::specs::Sequence::arrival_of))]
    pub fn judge(self, number: Inbound) -> Arrival
        ensures { result ≡ arrival_of self number }
    {
        if INBOUND_MAX < number.0 {
            Arrival::Refused
        } else if self.received == Some(number) {
            Arrival::Duplicate
        } else if number == self.expected {
            Arrival::Expected
        } else {
            Arrival::Gap
        }
    }

    // The line after a number: it moves unless the number is refused or a duplicate.
    #[tactic(auto, unfolding(crate::specs::Sequence::arrival_of, crate::specs::Sequence::line_after))]
    pub fn after(self, number: Inbound) -> Line
        ensures { result ≡ line_after self number }
    {
        match self.judge(number) {
            Arrival::Expected | Arrival::Gap => Line {
                received: Some(number),
                expected: Inbound(number.0 + 1),
            },
            _ => self,
        }
    }

    // Whether a line can have come about by numbers that were processed (42).
    #[tactic(auto, unfolding(crate::specs::Sequence::sound_line))]
    pub fn sound(self) -> bool
        ensures { result ≡ sound_line self }
    {
        match self.received {
            None => self.expected == Inbound(FIRST),
            Some(last) => last.0 <= INBOUND_MAX && self.expected.0 == last.0 + 1,
        }
    }
}

impl Outbound {
    // The next outbound number. The highest stays.
    #[tactic(auto, unfolding(crate::specs::Sequence::next_outbound))]
    pub fn next(self) -> Outbound
        ensures { result ≡ next_outbound self }
    {
        if self.0 < OUTBOUND_MAX {
            Outbound(self.0 + 1)
        } else {
            self
        }
    }

    // Whether fewer than two outbound numbers are left (43).
    pub fn spent(self) -> bool
        ensures { result ≡ outbound_spent self }
    {
        OUTBOUND_LAST_MAX < self.0
    }
}
