// 01, Herds on both sides of an edge: the rows that are run and not proved.
#![tactic(auto)]

use limits::Source;
use printing::tell;
use views::View;

// The numbers of its row 10, bytes and herds.
const BYTES: usize = 65536;

const HERDS: u8 = 64;

// 9. Roughage 365 days, 24 hours.
const ALWAYS_OUT: [u8; 459] = *b"\
D1,Livestock::RoughageConsuming::Excretion,animalcategory,fallow_deer\r\n\
D1,Livestock::RoughageConsuming::Excretion,animals,10\r\n\
D1,Livestock::RoughageConsuming::Excretion,inp_n_excretion,standard\r\n\
D1,Livestock::RoughageConsuming::Excretion,tan_fraction,standard\r\n\
D1,Livestock::RoughageConsuming::Housing::CFreeFactor,free_correction_factor,0\r\n\
D1,Livestock::RoughageConsuming::Grazing,grazing_days,365\r\n\
D1,Livestock::RoughageConsuming::Grazing,grazing_hours,24\r\n";

// The records of a herd of pigs, each behind its label.
const PIGS: [&[u8]; 8] = [
    b",Livestock::FatteningPigs::Excretion,animals,10\r\n",
    b",Livestock::FatteningPigs::Excretion,inp_n_excretion,13\r\n",
    b",Livestock::FatteningPigs::Excretion,tan_fraction,70\r\n",
    b",Livestock::FatteningPigs::Housing::Type,housing_type,Outdoor\r\n",
    b",Livestock::FatteningPigs::Housing::AirScrubber,air_scrubber,none\r\n",
    b",Livestock::FatteningPigs::Housing::MitigationOptions,mitigation_housing_floor,none\r\n",
    b",Livestock::FatteningPigs::Housing::MitigationOptions,mitigation_housing_air,none\r\n",
    b",Livestock::FatteningPigs::Housing::CFreeFactor,free_correction_factor,0\r\n",
];

// src from `at` on, where there is room for it, and the place past it.
fn add(out: &mut [u8], at: usize, src: &[u8]) -> usize {
    if out.len() < at || out.len() - at < src.len() {
        at
    } else {
        base::put(out, at, src)
    }
}

// A file of herds whose labels are the bytes from `0` to before `end`.
fn put_herds(out: &mut [u8], end: u8) -> usize {
    let mut at = 0;
    for label in b'0'..end {
        for rest in PIGS {
            at = add(out, at, &[label]);
            at = add(out, at, rest);
        }
    }
    at
}

fn read_herds(rt: &impl Print, end: u8) {
    let mut file: [u8; BYTES] = base::room();
    let n = put_herds(&mut file, end);
    let answer = farm_file::read(Source::StandardInput, base::part_of(&file, 0, n));
    tell::checked_line(rt, answer.checked);
    tell::number(rt, answer.farm.count as u64);
}

// So large an array comes from a function: where it is lent as it is made, every proof counts its elements.
fn one_field() -> [u8; BYTES + 1] {
    [b'a'; BYTES + 1]
}

// 10. 65,536 bytes are read, here as one field in place of four, and 65,537 are refusal 1; herd 64 is taken, herd 65 is
// refusal 9.
fn limits(rt: &impl Print) {
    let file = one_field();
    let _ = printing::print_view(
        rt,
        View::Figures,
        Source::StandardInput,
        base::part_of(&file, 0, BYTES),
    );
    let _ = printing::print_view(rt, View::Figures, Source::StandardInput, &file);
    read_herds(rt, b'0' + HERDS);
    read_herds(rt, b'0' + HERDS + 1);
}

fn main(rt: HostRuntime) {
    let _ = printing::print_view(&rt, View::Figures, Source::StandardInput, &ALWAYS_OUT);
    limits(&rt);
}
