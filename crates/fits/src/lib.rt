// Whether a value of a record that is handed in is one of its input's form, and whether a herd has one that is none: 7.
#![tactic(auto)]

ghost use Rattle.std.specs.Prelude.{◌≡◌};
ghost use Rattle.fits.specs.Fits.{standard_fits, value_fits, signed_fits, fits, unfit};

use farm::{Given, Herd};
use inputs::Form;

// Is this a value of the form? What is missing is no wrong value.
fn fits_form(form: Form, given: Given) -> bool
    ensures { result ≡ fits form given }
{
    match given {
        Given::Missing => true,
        Given::Standard => standard_fits(form),
        Given::Value(v) => value_fits(form, v),
        Given::Signed(v) => signed_fits(form, v),
    }
}

fn standard_fits(form: Form) -> bool
    ensures { result ≡ standard_fits form }
{
    matches!(form, Form::OrStandard(..))
}

fn value_fits(form: Form, v: u32) -> bool
    ensures { result ≡ value_fits form v }
{
    match form {
        Form::Number(_, most) | Form::OrStandard(_, most) | Form::NoStandard(_, most) => v <= most,
        Form::Signed(_) => false,
        Form::OneOf(names) => (v as usize) < names::size_of(names),
    }
}

fn signed_fits(form: Form, v: i32) -> bool
    ensures { result ≡ signed_fits form v }
{
    match form {
        Form::Signed(most) => cut_division::magnitude(v as i64) <= most as u64,
        _ => false,
    }
}

// Has the herd a value that is none of its input's?
pub fn has_unfit(h: Herd) -> bool
    ensures { result ≡ unfit h }
{
    for (i, slot) in h.slots[..inputs::count_of(h.kind)].iter().enumerate() {
        if !fits_form(inputs::form_of(h.kind, i), slot.given) {
            return true;
        }
    }
    false
}
