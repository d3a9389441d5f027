// Lends sequence numbers to Rust and C: each exported function writes its numbers at the head of a lent slice.
#![tactic(auto)]

ghost use Rattle.std.specs.Prelude.{◌≡◌};
ghost use Rattle.lists.specs.Lists.{pasted};
ghost use Rattle.sequence.specs.Sequence.{inbound, outbound};
ghost use Rattle.compare_line.specs.Numbers.{line_of, line_numbers, outbound_numbers};

use sequence::{Inbound, Line, Outbound};

// A line by its numbers: whether one was received, the last one, and the one expected.
fn line_of(any: bool, last: u32, expected: u32) -> Line
    ensures { result ≡ line_of any last expected }
{
    Line {
        received: any.then_some(Inbound(last)),
        expected: Inbound(expected),
    }
}

#[tactic(auto, unfolding(crate::specs::Numbers::line_numbers, exports_numbers::specs::Bit::bit))]
fn line_numbers(line: Line, number: Inbound) -> [u64; 5]
    ensures { result ≡ line_numbers line number }
{
    let after = line.after(number);
    [
        line.judge(number) as u64,
        u64::from(after.received.is_some()),
        after.received.map_or(0, |last| u64::from(last.0)),
        u64::from(after.expected.0),
        u64::from(line.sound()),
    ]
}

// Writes what a number is to a line, what the line is after it, and whether the line can have come about (42).
#[unsafe(no_mangle)]
pub extern "C" fn rhoikandra_line(any: bool, last: u32, expected: u32, number: u32, out: &mut [u64])
    ensures { out.new ≡ pasted out.old 0 (line_numbers (line_of any last expected) (inbound number)) }
{
    let line = line_of(any, last, expected);
    output::put(out, 0, &line_numbers(line, Inbound(number)));
}

// Writes the outbound number after the last one used, and whether fewer than two are left (43).
#[tactic(auto, unfolding(crate::specs::Numbers::outbound_numbers, exports_numbers::specs::Bit::bit))]
#[unsafe(no_mangle)]
pub extern "C" fn rhoikandra_outbound(last: u32, out: &mut [u64])
    ensures { out.new ≡ pasted out.old 0 (outbound_numbers (outbound last)) }
{
    let last = Outbound(last);
    let next = u64::from(last.next().0);
    let spent = u64::from(last.spent());
    output::put(out, 0, &[next, spent]);
}
