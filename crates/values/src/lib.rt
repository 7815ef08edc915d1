// What a value's text says, by the form of its input.
#![tactic(auto)]

ghost use Rattle.std.specs.Prelude.{◌≡◌};
ghost use Rattle.names.specs.Find.{find_name};
ghost use Rattle.values.specs.Values.{is_standard, name_read, value_of};

use farm::Given;
use inputs::Form;
use names::ValueList;
use number_values::ValueFault;

fn is_standard(s: &[u8]) -> bool
    ensures { result ≡ is_standard s.now }
{
    base::same_letters(s, b"standard")
}

fn name_read(names: ValueList, s: &[u8]) -> Result<Given, ValueFault>
    ensures { result ≡ name_read (find_name names s.now) }
{
    let Some(place) = names::find_name(names, s) else {
        return Err(ValueFault::Unfit);
    };
    Ok(Given::Value(place as u32))
}

pub fn value_of(form: Form, s: &[u8]) -> Result<Given, ValueFault>
    ensures { result ≡ value_of form s.now }
{
    match form {
        Form::Number(decimals, most) => number_values::number_read(s, decimals, most),
        Form::OrStandard(decimals, most) => {
            if is_standard(s) {
                Ok(Given::Standard)
            } else {
                number_values::number_read(s, decimals, most)
            }
        }
        Form::NoStandard(decimals, most) => {
            if is_standard(s) {
                Err(ValueFault::Forbidden)
            } else {
                number_values::number_read(s, decimals, most)
            }
        }
        Form::Signed(most) => number_values::signed_read(s, most),
        Form::OneOf(names) => name_read(names, s),
    }
}
