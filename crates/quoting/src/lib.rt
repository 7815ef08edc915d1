// A name as it is shown in a message: so that it can be pasted into a shell, and so that no control byte reaches a
// terminal.
#![tactic(auto)]

ghost use Rattle.std.specs.Prelude.{◌≡◌, ◌+◌, ◌*◌, ◌≤◌, ◌<◌, length, drop};
ghost use Rattle.base.specs.Wrote.{Wrote};
ghost use Rattle.shown_bytes.specs.Shown.{worse, byte_most};
ghost use Rattle.quoting.specs.Quoted.{form_of, shown_from, opening, closing, quoted};
ghost use Rattle.quoting.specs.Units.{paired, unit_of, unit_form, unit_shown, quoted_most};

use shown_bytes::Form;

// A byte is shown as so many at most.
pub const BYTE_MOST: usize = shown_bytes::BYTE_MOST;

// So many stand around a name at most.
pub const AROUND_MOST: usize = 3;

// Do a letter's two bytes stand at i?
fn is_paired(s: &[u8], i: usize) -> bool
    requires { i < length s.now }
    ensures { result ≡ paired (drop i s.now) }
{
    i + 1 < s.len() && shown_bytes::is_letter(s[i], s[i + 1])
}

fn worse(a: Form, b: Form) -> Form
    ensures { result ≡ worse a b }
{
    a.max(b)
}

// How many bytes the one at i stands with, and the form that they ask for.
fn unit_at(s: &[u8], i: usize) -> usize
    requires { i < length s.now }
    ensures { (result ≡ unit_of (drop i s.now)) × (0 < result) × (i + result ≤ length s.now) }
{
    if is_paired(s, i) { 2 } else { 1 }
}

fn form_at(s: &[u8], i: usize) -> Form
    requires { i < length s.now }
    ensures { result ≡ unit_form (drop i s.now) }
{
    if is_paired(s, i) {
        Form::Plain
    } else {
        shown_bytes::form_needed(s[i])
    }
}

// The form that the whole name asks for.
fn form_of(s: &[u8]) -> Form
    ensures { result ≡ form_of s.now }
{
    if s.len() == 0 {
        return Form::Quoted;
    }
    let mut form = Form::Plain;
    // Not a `for`: a letter of two bytes is passed at once.
    let mut i = 0;
    while i < s.len() {
        form = worse(form, form_at(s, i));
        i += unit_at(s, i);
    }
    form
}

// The byte at i, with the one that it stands with.
fn put_unit(out: &mut [u8], at: usize, form: Form, s: &[u8], i: usize) -> usize
    requires { (at + byte_most ≤ length out.old) × (i < length s.now) }
    ensures { Wrote out.old at (unit_shown form (drop i s.now)) out.new result }
{
    if is_paired(s, i) {
        base::put(out, at, base::part_of(s, i, i + 2))
    } else {
        shown_bytes::put_shown(out, at, form, s[i])
    }
}

fn put_units(out: &mut [u8], at: usize, form: Form, s: &[u8]) -> usize
    requires { at + byte_most * length s.now ≤ length out.old }
    ensures { Wrote out.old at (shown_from form s.now) out.new result
        × (result ≤ at + byte_most * length s.now) }
{
    let mut o = at;
    // Not a `for`, as in `form_of`.
    let mut i = 0;
    while i < s.len() {
        o = put_unit(out, o, form, s, i);
        i += unit_at(s, i);
    }
    o
}

fn put_opening(out: &mut [u8], at: usize, form: Form) -> usize
    requires { at + 2 ≤ length out.old }
    ensures { Wrote out.old at (opening form) out.new result × (result ≤ at + 2) }
{
    match form {
        Form::Plain => at,
        Form::Quoted => base::put(out, at, b"'"),
        Form::Escaped => base::put(out, at, b"$'"),
    }
}

fn put_closing(out: &mut [u8], at: usize, form: Form) -> usize
    requires { at + 1 ≤ length out.old }
    ensures { Wrote out.old at (closing form) out.new result × (result ≤ at + 1) }
{
    match form {
        Form::Plain => at,
        Form::Quoted | Form::Escaped => base::put_byte(out, at, b'\''),
    }
}

// The name from `at` on, as it is shown; the place past it.
pub fn put_quoted(out: &mut [u8], at: usize, name: &[u8]) -> usize
    requires { at + quoted_most (length name.now) ≤ length out.old }
    ensures { Wrote out.old at (quoted name.now) out.new result
        × (result ≤ at + quoted_most (length name.now)) }
{
    let form = form_of(name);
    let a = put_opening(out, at, form);
    let b = put_units(out, a, form, name);
    put_closing(out, b, form)
}
