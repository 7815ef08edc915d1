// A herd put into a buffer as the file that says it (02, W5). It goes by the list of inputs: a record for each, with
// what stands in its slot.
#![tactic(auto)]

mod heads; // module and input name of each record

ghost use Rattle.std.specs.Prelude.{◌+◌, ◌≤◌, ◌<◌, length};
ghost use Rattle.base.specs.Wrote.{Wrote};
ghost use Rattle.inputs.specs.Inputs.{count_of, row_at, form_of};
ghost use Rattle.farm.specs.Labels.{text};
ghost use Rattle.value_texts.specs.Values.{value_text};
ghost use Rattle.file_text.specs.Files.{input_text, record_text, herd_file};

use farm::{Given, Herd, Label};
use inputs::Kind;
use line_parts::labels;

// Module and name of the input in a slot.
fn put_input(out: &mut [u8], at: usize, kind: Kind, slot: usize) -> usize
    requires { (slot < count_of kind) × (at + length (input_text (row_at kind slot)) ≤ length out.old) }
    ensures { Wrote out.old at (input_text (row_at kind slot)) out.new result }
{
    match kind {
        Kind::Roughage => word_texts::put_word(
            out,
            at,
            &heads::ROUGHAGE,
            &heads::ROUGHAGE_LENGTHS,
            slot,
        ),
        Kind::Cattle => word_texts::put_word(out, at, &heads::CATTLE, &heads::CATTLE_LENGTHS, slot),
        Kind::Pigs => word_texts::put_word(out, at, &heads::PIGS, &heads::PIGS_LENGTHS, slot),
        Kind::DairyCow => word_texts::put_word(
            out,
            at,
            &heads::DAIRY_COW,
            &heads::DAIRY_COW_LENGTHS,
            slot,
        ),
    }
}

// The record that gives the herd of this label the input in a slot.
fn put_record(
    out: &mut [u8],
    at: usize,
    label: Label,
    kind: Kind,
    slot: usize,
    given: Given,
) -> usize
    requires { (slot < count_of kind)
        × (at + length (record_text (text label) (row_at kind slot) (value_text (form_of kind slot) given))
        ≤ length out.old) }
    ensures { Wrote out.old at
        (record_text (text label) (row_at kind slot) (value_text (form_of kind slot) given)) out.new result }
{
    let a = labels::put_label(out, at, label);
    let b = base::put_byte(out, a, b',');
    let c = put_input(out, b, kind, slot);
    let d = base::put_byte(out, c, b',');
    let e = value_texts::put_value(out, d, inputs::form_of(kind, slot), given);
    base::put(out, e, b"\r\n")
}

// A herd's records, from `at` on; the end of the last.
#[tactic(auto, using(crate::proofs::HerdSteps::herd_steps))]
pub fn put_herd(out: &mut [u8], at: usize, herd: Herd) -> usize
    requires { at + length (herd_file herd) ≤ length out.old }
    ensures { Wrote out.old at (herd_file herd) out.new result }
{
    let mut next = at;
    for slot in 0..inputs::count_of(herd.kind) {
        next = put_record(
            out,
            next,
            herd.label,
            herd.kind,
            slot,
            herd.slots[slot].given,
        );
    }
    next
}
