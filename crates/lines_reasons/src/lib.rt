// 02, W2: a herd's reason, byte by byte, into a lent buffer: of a herd with a yard a record, or a sentence that can be
// read aloud. No figure is worked out.
#![tactic(auto)]

ghost use Rattle.std.specs.Prelude.{◌≡◌, ◌+◌, ◌≤◌, length};
ghost use Rattle.base.specs.Text.{bytes};
ghost use Rattle.base.specs.Wrote.{Wrote};
ghost use Rattle.decimal.specs.Writing.{whole_of};
ghost use Rattle.decimal.specs.Rooms.{digits_most};
ghost use Rattle.farm.specs.Labels.{text};
ghost use Rattle.farm.specs.Answers.{Accepted};
ghost use Rattle.checks.specs.Checks.{check_herd};
ghost use Rattle.lines_reasons.specs.Lines.{tenths_of, reason_field, numbers_of, why_record, because, days_words};
ghost use Rattle.lines_reasons.specs.Lines.{shares_words, why_sentence, why_text, told_text, herd_why};
ghost use Rattle.lines_reasons.specs.Rooms.{longest_tenths, longest_reason, longest_numbers};
ghost use Rattle.lines_reasons.specs.Rooms.{longest_because, longest_days, longest_shares, longest_line};

use amounts::TENTHS;
use farm::{Herd, Label};
use line_parts::labels;
use reasons::{Reason, Why};

// A reason's record, or its sentence.
#[derive(Clone, Copy, Debug, PartialEq, Eq)]
pub enum Wording {
    Record,
    Sentence,
}

// A whole number from `at` on; the end of it. So with every part of a line.
fn put_number(out: &mut [u8], at: usize, n: u64) -> usize
    requires { at + digits_most ≤ length out.old }
    ensures { Wrote out.old at (whole_of n) out.new result × (result ≤ at + digits_most) }
{
    decimal::put_whole(out, at, n)
}

// So many tenths, with one decimal.
fn put_tenths(out: &mut [u8], at: usize, n: u64) -> usize
    requires { at + longest_tenths ≤ length out.old }
    ensures { Wrote out.old at (tenths_of n) out.new result × (result ≤ at + longest_tenths) }
{
    let a = put_number(out, at, n / TENTHS);
    let b = base::put_byte(out, a, b'.');
    put_number(out, b, n % TENTHS)
}

// The field of a reason.
fn put_reason(out: &mut [u8], at: usize, reason: Reason) -> usize
    requires { at + longest_reason ≤ length out.old }
    ensures { Wrote out.old at (reason_field reason) out.new result × (result ≤ at + longest_reason) }
{
    match reason {
        Reason::NoSuchDays => base::put(out, at, b",no_such_days,"),
        Reason::NotAvailable => base::put(out, at, b",not_available,"),
        Reason::AsChosen => base::put(out, at, b",as_chosen,"),
        Reason::Lowered => base::put(out, at, b",lowered,"),
    }
}

// A reason in words.
fn put_because(out: &mut [u8], at: usize, reason: Reason) -> usize
    requires { at + longest_because ≤ length out.old }
    ensures { Wrote out.old at (bytes (because reason)) out.new result
        × (result ≤ at + longest_because) }
{
    match reason {
        Reason::NoSuchDays => base::put(
            out,
            at,
            b", since there is no such day and the chosen share stays ",
        ),
        Reason::NotAvailable => base::put(
            out,
            at,
            b", since no yard is available and the chosen share is ",
        ),
        Reason::AsChosen => base::put(out, at, b", the same as the chosen share of "),
        Reason::Lowered => base::put(out, at, b", lowered from the chosen share of "),
    }
}

// The days and the share: the last two fields.
fn put_numbers(out: &mut [u8], at: usize, days: u64, share: u64) -> usize
    requires { at + longest_numbers ≤ length out.old }
    ensures { Wrote out.old at (numbers_of days share) out.new result
        × (result ≤ at + longest_numbers) }
{
    let a = put_number(out, at, days);
    let b = base::put_byte(out, a, b',');
    let c = put_tenths(out, b, share);
    base::put(out, c, b"\r\n")
}

fn put_record(out: &mut [u8], at: usize, label: Label, w: Why) -> usize
    requires { at + longest_line ≤ length out.old }
    ensures { Wrote out.old at (why_record (text label) w) out.new result
        × (result ≤ at + longest_line) }
{
    let a = labels::put_label(out, at, label);
    let b = put_reason(out, a, w.reason);
    put_numbers(out, b, w.days, w.share)
}

// The days in words.
fn put_days(out: &mut [u8], at: usize, days: u64) -> usize
    requires { at + longest_days ≤ length out.old }
    ensures { Wrote out.old at (days_words days) out.new result × (result ≤ at + longest_days) }
{
    let a = base::put(out, at, b": with both yard and pasture on ");
    let b = put_number(out, a, days);
    base::put(out, b, b" of 365 days, the yard's share on such days is ")
}

// The share in words, and why it is that.
fn put_shares(out: &mut [u8], at: usize, w: Why) -> usize
    requires { at + longest_shares ≤ length out.old }
    ensures { Wrote out.old at (shares_words w) out.new result × (result ≤ at + longest_shares) }
{
    let a = put_tenths(out, at, w.share);
    let b = put_because(out, a, w.reason);
    let c = put_tenths(out, b, w.chosen);
    base::put(out, c, b".\r\n")
}

fn put_sentence(out: &mut [u8], at: usize, label: Label, w: Why) -> usize
    requires { at + longest_line ≤ length out.old }
    ensures { Wrote out.old at (why_sentence (text label) w) out.new result
        × (result ≤ at + longest_line) }
{
    let a = labels::put_label(out, at, label);
    let b = put_days(out, a, w.days);
    put_shares(out, b, w)
}

fn put_why(out: &mut [u8], at: usize, label: Label, w: Why, wording: Wording) -> usize
    requires { at + longest_line ≤ length out.old }
    ensures { Wrote out.old at (why_text wording (text label) w) out.new result
        × (result ≤ at + longest_line) }
{
    match wording {
        Wording::Record => put_record(out, at, label, w),
        Wording::Sentence => put_sentence(out, at, label, w),
    }
}

// Nothing of a herd without a yard.
fn put_told(out: &mut [u8], at: usize, label: Label, told: Option<Why>, wording: Wording) -> usize
    requires { at + longest_line ≤ length out.old }
    ensures { Wrote out.old at (told_text wording (text label) told) out.new result
        × (result ≤ at + longest_line) }
{
    match told {
        Some(w) => put_why(out, at, label, w, wording),
        None => at,
    }
}

// The line of an accepted herd, from `at` on; the end of it.
pub fn put_herd(out: &mut [u8], at: usize, h: Herd, wording: Wording) -> usize
    requires { (check_herd h ≡ Accepted) × (at + longest_line ≤ length out.old) }
    ensures { Wrote out.old at (herd_why wording h) out.new result × (result ≤ at + longest_line) }
{
    put_told(
        out,
        at,
        h.label,
        herd_reasons::told_of(herd_inputs::typed_of(h)),
        wording,
    )
}
