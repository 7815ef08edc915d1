// A file from standard input, and what mending makes of it on standard output: the mended file, or the list of its
// changes. What goes wrong is a line on standard error, and then nothing more is printed.
#![tactic(auto)]

pub mod lines; // the list as text

ghost use Rattle.std.specs.Prelude.{◌*◌, ◌≤◌, length};
ghost use Rattle.mend_print.specs.Lines.{round_most};

use streams::telling;
use streams::telling::Tell;

// The longest file that is mended here.
pub const FILE_MOST: usize = 262144;

// One byte more, so that a longer one is seen.
pub const INPUT_MOST: usize = FILE_MOST + 1;

// Every byte may be a bare LF.
const MENDED_MOST: usize = 2 * FILE_MOST;

const LIST_MOST: usize = mend::ENTRY * FILE_MOST;

// So many numbers of the list are printed at a time.
const ROUND: usize = 2048;

const ROUND_ROOM: usize = ROUND * lines::NUMBER_ROOM;

// The file, and its length; where it cannot be read or is too long, that is said, and there is none.
pub fn read_file(rt: &(impl Input + Tell), file: &mut [u8]) -> Option<usize> {
    match streams::read_all(rt, file) {
        Ok(n) if n <= FILE_MOST => Some(n),
        Ok(_) => {
            rt.tell(b"urvendlo: the file has more than 262,144 bytes\n");
            None
        }
        Err(error) => {
            telling::fail(rt, b"urvendlo: the input cannot be read", error);
            None
        }
    }
}

// A text on standard output; was all of it written?
pub fn print(rt: &(impl Print + Tell), text: &[u8]) -> bool {
    let printed = streams::write_all(rt, text);
    if let Err(error) = printed {
        telling::fail(rt, b"urvendlo: the output cannot be written", error);
    }
    printed.is_ok()
}

// Some changes, kind and place one after the other; were all of them written?
fn print_some(rt: &(impl Print + Tell), list: &[usize]) -> bool
    requires { length list.now ≤ round_most }
{
    let mut text: [u8; ROUND_ROOM] = base::room();
    let n = lines::put_lines(&mut text, list);
    print(rt, base::part_of(&text, 0, n))
}

// A list of changes; was all of it written?
pub fn print_list(rt: &(impl Print + Tell), list: &[usize]) -> bool {
    list.chunks(ROUND).all(|some| print_some(rt, some))
}

// The mended file, by way of these slices; was all of it written?
pub fn print_mended_by(
    rt: &(impl Print + Tell),
    s: &[u8],
    out: &mut [u8],
    list: &mut [usize],
) -> bool {
    match mend::mend(s, out, list) {
        Ok((length, _)) => print(rt, base::part_of(out, 0, length)),
        Err(_) => false,
    }
}

// Mends the file into these slices; how many changes does the list now have?
fn changes_listed(s: &[u8], out: &mut [u8], list: &mut [usize]) -> usize
    ensures { 2 * result ≤ length list.new }
{
    match mend::mend(s, out, list) {
        Ok((_, changes)) => changes,
        Err(_) => 0,
    }
}

// The list of changes, by way of these slices; was all of it written?
pub fn print_changes_by(
    rt: &(impl Print + Tell),
    s: &[u8],
    out: &mut [u8],
    list: &mut [usize],
) -> bool {
    let changes = changes_listed(s, out, list);
    print_list(rt, &list[..mend::ENTRY * changes])
}

// Room for the list of the changes. So large an array comes from a function: where it is lent as it is made, every
// proof counts its elements.
fn list_room() -> [usize; LIST_MOST] {
    [0usize; LIST_MOST]
}

// The mended file, of no more than the longest; was all of it written?
pub fn print_mended(rt: &(impl Print + Tell), s: &[u8]) -> bool {
    let mut out: [u8; MENDED_MOST] = base::room();
    let mut list = list_room();
    print_mended_by(rt, s, &mut out, &mut list)
}

// The list of changes of such a file; was all of it written?
pub fn print_changes(rt: &(impl Print + Tell), s: &[u8]) -> bool {
    let mut out: [u8; MENDED_MOST] = base::room();
    let mut list = list_room();
    print_changes_by(rt, s, &mut out, &mut list)
}
