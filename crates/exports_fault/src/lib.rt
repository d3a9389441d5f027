// What the calls for C and Rust say of a rule that is broken: by the words that opening is lent, and of a book after its table was judged.
#![tactic(auto)]

ghost use Rattle.std.specs.Prelude.{◌≡◌, [], ◌∷◌};
ghost use Rattle.lists.specs.Lists.{pasted};
ghost use Rattle.image.specs.Images.{is_image};
ghost use Rattle.fault.specs.Rules.{test, first};
ghost use Rattle.calls_words.specs.Faults.{opening_fault_in, fault_numbers};

use fault::Fault;

// The rule that words break which lend nothing to opening, or are no book's.
const WORDS: u64 = 101;

// 41: the rule that is broken first by what words lend and a table of so many records.
pub fn opening_fault(image: &[u64], records: usize) -> Option<Fault>
    ensures { result ≡ opening_fault_in image.now records }
{
    let Some(values) = image_reading::read_lent(image) else {
        return fault::tested(WORDS, 0, false);
    };
    fault_opening::opening_fault(&values, records)
}

// Writes what is broken in two numbers: zeros where nothing is.
#[tactic(auto, unfolding(calls_words::specs::Faults::fault_numbers))]
pub fn put_fault(out: &mut [u64], found: Option<Fault>)
    ensures { out.new ≡ pasted out.old 0 (fault_numbers found) }
{
    let two = match found {
        Some(f) => [f.rule, f.place],
        None => [0, 0],
    };
    output::put(out, 0, &two);
}

// Writes what is broken of the book that words say, where its table was judged: of words that are no book's that they are none.
#[tactic(auto, unfolding(image_reading::specs::Reading::read_book))]
pub fn put_book_fault(out: &mut [u64], image: &[u64], found: Option<Fault>)
    ensures { out.new ≡ pasted out.old 0 (fault_numbers (first (test 101 0 (is_image image.now) ∷ found ∷ []))) }
{
    let says_book = image_reading::read_book(image).is_some();
    put_fault(out, fault::tested(WORDS, 0, says_book).or(found));
}
