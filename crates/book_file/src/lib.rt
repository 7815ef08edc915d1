// Where a farm's book begins (02, W11): the book of a farm of no herds, and that of a file which is read into a lent
// array of herd records, as crate `lent_file` reads it.
#![tactic(auto)]

ghost use Rattle.std.specs.Prelude.{◌≡◌, []};
ghost use Rattle.book_file.specs.Books.{book_of, ReadsBook, IsRead, told_of};

use books::Book;
use farm::{Checked, Herd};
use outputs::Totals;
use reader::FileAnswer;

// What reading into an array gives: the refusal and the book of no herds, or the book of the file's.
#[derive(Clone, Copy, Debug, PartialEq, Eq)]
pub struct BookAnswer {
    pub checked: Checked,
    pub book: Book,
}

// A file read, and the totals of its herds; of a refusal those of no herds.
#[derive(Clone, Copy)]
struct Read {
    answer: FileAnswer,
    totals: Totals,
}

// The book of a farm of no herds.
pub fn empty_book() -> Book
    ensures { result ≡ book_of [] }
{
    Book {
        count: 0,
        totals: sums::totals_from(sums::no_figures()),
    }
}

// For an array of `len` entries. A refusal has a farm of no herds, which passes the checks as every farm that is read
// does.
fn read_for(s: &[u8], len: usize) -> Read
    ensures { IsRead len s.now result }
{
    let answer = lent_file::read_for(s, len);
    Read {
        answer,
        totals: sums::totals_from(farm_sums::sum_of(answer.farm)),
    }
}

fn told(read: Read) -> BookAnswer
    ensures { result ≡ told_of read }
{
    BookAnswer {
        checked: read.answer.checked,
        book: Book {
            count: read.answer.farm.count,
            totals: read.totals,
        },
    }
}

// A file's herds go to the front of the array, and their book is given; every entry behind them stays, and after a
// refusal all entries do.
pub fn read_book(s: &[u8], herds: &mut [Herd]) -> BookAnswer
    ensures { ReadsBook s.now herds.old result herds.new }
{
    let read = read_for(s, herds.len());
    lent::store(herds, read.answer.farm);
    told(read)
}
