// Opening on a lent table of pool records: decides number 41 on the values and on how many records there are, and puts zeros into the table where it passes.
#![tactic(auto)]

ghost use Rattle.calls.specs.Calls.{Opens};

use book::{Book, Pool, Values};

// Opens a book over a table of pool records. Where 41 refuses it, the table stays, and the book has one trade more than a book can have: every call refuses it with 42, whatever the table is.
#[tactic(auto, unfolding(book::specs::Opening::opening_fine, book::specs::Opening::unopened, book::specs::Opening::cleared))]
pub fn open_table(v: Values, pools: &mut [Pool]) -> Result<Book, Book>
    ensures { Opens v pools.old result pools.new }
{
    let fine = check_opening::values_fine(&v) && pools.len() <= book::RECORDS_MAX;
    let mut book = check_opening::opened_book(v);
    if !fine {
        book.values.lent.trade_count = book::TRADES_MAX + 1;
        return Err(book);
    }
    rows::clear(pools);
    Ok(book)
}
