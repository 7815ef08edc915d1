// A herd's notes as a record, byte by byte, into a lent buffer: its label, and yes or no for each note. No figure is
// worked out.
#![tactic(auto)]

ghost use Rattle.std.specs.Prelude.{◌≡◌, ◌+◌, ◌*◌, ◌≤◌, length};
ghost use Rattle.base.specs.Wrote.{Wrote};
ghost use Rattle.farm.specs.Labels.{text};
ghost use Rattle.farm.specs.Answers.{Accepted};
ghost use Rattle.checks.specs.Checks.{check_herd};
ghost use Rattle.line_parts.specs.Fields.{each};
ghost use Rattle.lines_notes.specs.Records.{note_field, notes_record, herd_notes};
ghost use Rattle.lines_notes.specs.Rooms.{longest_note, longest_record};

use farm::{Herd, Label};
use line_parts::labels;
use notes::Notes;

// A note as a further field, from `at` on; the end of it.
fn put_note(out: &mut [u8], at: usize, noted: bool) -> usize
    requires { at + longest_note ≤ length out.old }
    ensures { Wrote out.old at (note_field noted) out.new result × (result ≤ at + longest_note) }
{
    if noted {
        base::put(out, at, b",yes")
    } else {
        base::put(out, at, b",no")
    }
}

// These notes, one after the other.
fn put_notes(out: &mut [u8], at: usize, noted: &[bool]) -> usize
    requires { at + length noted.now * longest_note ≤ length out.old }
    ensures { Wrote out.old at (each note_field noted.now) out.new result
        × (result ≤ at + length noted.now * longest_note) }
{
    let mut next = at;
    for &note in noted {
        next = put_note(out, next, note);
    }
    next
}

// A herd's record.
fn put_record(out: &mut [u8], at: usize, label: Label, n: Notes) -> usize
    requires { at + longest_record ≤ length out.old }
    ensures { Wrote out.old at (notes_record (text label) n) out.new result
        × (result ≤ at + longest_record) }
{
    let a = labels::put_label(out, at, label);
    let b = put_notes(out, a, &herd_notes::in_order(n));
    base::put(out, b, b"\r\n")
}

// The record of an accepted herd, from `at` on; the end of it.
pub fn put_herd(out: &mut [u8], at: usize, h: Herd) -> usize
    requires { (check_herd h ≡ Accepted) × (at + longest_record ≤ length out.old) }
    ensures { Wrote out.old at (herd_notes h) out.new result × (result ≤ at + longest_record) }
{
    put_record(
        out,
        at,
        h.label,
        herd_notes::notes_of(herd_inputs::typed_of(h)),
    )
}
