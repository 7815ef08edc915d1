// What users of the library call, and nothing else. Nothing is asked of a caller beforehand: a file of any bytes and a
// record of any content get what is asked for, or exactly one refusal, and where a call refuses, 13 too, the lent
// buffer is as it was. How long a file and how large its farm may be is said by where it comes from. What the calls are
// to do stands in crate `contracts`, the demands in crate `promises`.
#![tactic(auto)]

ghost use Rattle.std.specs.Prelude.{◌≡◌};
ghost use Rattle.contracts.specs.Listings.{Called, file_herd_call, file_totals_call, file_call};
ghost use Rattle.contracts.specs.Reasons.{file_reason};

use limits::Source;
use reasons::ReasonAnswer;
use views::{View, farms};
use written::Written;

// from a herd's record
pub use herd_calls::{herd_figures, herd_reason, herd_view};

// from a farm's, which is a slice of herds and a count; and a file's herds read into such a slice
pub use farm_calls::{farm_totals, totals_listing};
pub use lent_file::read_into;
pub use lent_line::farm_above_line;
pub use lent_view::farm_view;

// a farm's totals that follow the edit: the book of no herds, that of a file which is read into such a slice, and a
// step that changes slice and book
pub use book_file::{empty_book, read_book};
pub use lent_steps::{herd_named, take_step};

// whether a file's farm is above a line
pub use line_calls::file_above_line;

// Room for any view of any file: from standard input, and a cooperative's.
pub const INPUT_VIEW_ROOM: usize = views::INPUT_ROOM;

pub const COOPERATIVE_VIEW_ROOM: usize = views::COOPERATIVE_ROOM;

// Why the yard of a herd of a file has its share on days with both, by the herd's number, counted from 0; past the last
// there is no herd.
pub fn file_herd_reason(source: Source, s: &[u8], number: usize) -> ReasonAnswer
    ensures { result ≡ file_reason source s.now number }
{
    let answer = farm_file::read(source, s);
    answer.checked?;
    if number < answer.farm.count {
        herd_reason(answer.farm.herds[number])
    } else {
        Ok(None)
    }
}

// What the view lists of a herd of a file, by the herd's number, counted from 0; past the last nothing.
pub fn file_herd_view(
    view: View,
    source: Source,
    s: &[u8],
    number: usize,
    out: &mut [u8],
) -> Written
    ensures { Called (file_herd_call source view s.now number)
        out.old out.new result }
{
    let answer = farm_file::read(source, s);
    answer.checked?;
    if answer.farm.count <= number {
        Ok(0)
    } else {
        herd_view(view, answer.farm.herds[number], out)
    }
}

// The totals' listing of a file.
pub fn file_totals_listing(source: Source, s: &[u8], out: &mut [u8]) -> Written
    ensures { Called (file_totals_call source s.now) out.old out.new result }
{
    let answer = farm_file::read(source, s);
    answer.checked?;
    herd_calls::totals_by_value(answer.farm, out)
}

// What the view lists of a whole file: herd after herd, and behind the figures the totals. It is put straight into a
// buffer that has room for every farm of as many herds, but for a view that has a limit.
pub fn file_view(view: View, source: Source, s: &[u8], out: &mut [u8]) -> Written
    ensures { Called (file_call source view s.now) out.old out.new result }
{
    let answer = farm_file::read(source, s);
    answer.checked?;
    let room = answer.farm.count * views::HERD_ROOM + views::BEHIND_ROOM;
    if farms::has_limit(view) {
        view_calls::accepted_view(view, answer.farm, out)
    } else if room <= out.len() {
        Ok(farms::put_view(out, answer.farm, view))
    } else {
        view_writing::write_view(out, answer.farm, view)
    }
}
