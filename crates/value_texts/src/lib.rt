// A value put into a buffer as a farm file has it (02, W5), by the form of its input.
#![tactic(auto)]

ghost use Rattle.std.specs.Prelude.{◌+◌, ◌≤◌, length};
ghost use Rattle.base.specs.Wrote.{Wrote};
ghost use Rattle.value_texts.specs.Values.{number_text, signed_text, value_text};

use farm::Given;
use inputs::Form;

// A whole number, behind a `-` where it is below zero.
fn put_signed(out: &mut [u8], at: usize, v: i64) -> usize
    requires { at + length (signed_text v) ≤ length out.old }
    ensures { Wrote out.old at (signed_text v) out.new result }
{
    let a = kilogram_text::put_sign(out, at, v);
    decimal::put_whole(out, a, cut_division::magnitude(v))
}

// A number, or the name at its place.
#[tactic(auto, using(base::proofs::Writes::wrote_nothing), unfolding(crate::specs::Values::number_text))]
fn put_number(out: &mut [u8], at: usize, form: Form, v: u32) -> usize
    requires { at + length (number_text form v) ≤ length out.old }
    ensures { Wrote out.old at (number_text form v) out.new result }
{
    match form {
        Form::Number(decimals, _) | Form::OrStandard(decimals, _) | Form::NoStandard(decimals, _) =>
            shortest_numbers::put_shortest(out, at, decimals, v),
        Form::Signed(_) => at,
        Form::OneOf(names) => word_texts::put_name(out, at, names, v as usize),
    }
}

#[tactic(auto, using(base::proofs::Writes::wrote_nothing), unfolding(crate::specs::Values::value_text))]
pub fn put_value(out: &mut [u8], at: usize, form: Form, given: Given) -> usize
    requires { at + length (value_text form given) ≤ length out.old }
    ensures { Wrote out.old at (value_text form given) out.new result }
{
    match given {
        Given::Missing => at,
        Given::Standard => base::put(out, at, b"standard"),
        Given::Value(v) => put_number(out, at, form, v),
        Given::Signed(v) => put_signed(out, at, v as i64),
    }
}
