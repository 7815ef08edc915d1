// Lent buffers of all lengths: 13 below the listing's length, and nothing written; from it on the listing, and every
// byte past it as it was. And herds past the last, whose listing is empty. The expected output is worked out from 01.
#![tactic(auto)]

ghost use Rattle.std.specs.Prelude.{◌≤◌};

use base::refusals::Refused;
use farm::Farm;
use limits::Source;
use printing::tell;
use views::View;
use written::Written;

// What fills a buffer before a call; no listing here has it.
const MARK: u8 = b'#';

const ROOM: usize = 2048;

// 01's example file, and the lengths of its herd's listing and of its totals'.
const PIGS: [u8; 548] = *b"\
P1,Livestock::FatteningPigs::Excretion,animals,10\r\n\
P1,Livestock::FatteningPigs::Excretion,inp_n_excretion,13\r\n\
P1,Livestock::FatteningPigs::Excretion,tan_fraction,70\r\n\
P1,Livestock::FatteningPigs::Housing::Type,housing_type,Outdoor\r\n\
P1,Livestock::FatteningPigs::Housing::AirScrubber,air_scrubber,none\r\n\
P1,Livestock::FatteningPigs::Housing::MitigationOptions,mitigation_housing_floor,none\r\n\
P1,Livestock::FatteningPigs::Housing::MitigationOptions,mitigation_housing_air,none\r\n\
P1,Livestock::FatteningPigs::Housing::CFreeFactor,free_correction_factor,0\r\n";

const HERD_LENGTH: usize = 1344;

const TOTALS_LENGTH: usize = 597;

// And that of the herd's cuts.
const CUTS_LENGTH: usize = 1185;

// And that of its notes: `P1`, five times `,no`, CRLF.
const NOTES_LENGTH: usize = 19;

const NUMBER_13: u64 = 13;

// A writing call: of a record, of a file, or of a file's herd.
#[derive(Clone, Copy)]
enum Call {
    Herd(View),
    Totals,
    FileTotals,
    FileHerd(View, usize),
    File(View),
    OfNoHerds,
}

fn farm() -> Farm {
    farm_file::read(Source::StandardInput, &PIGS).farm
}

fn write_herd(view: View, f: Farm, out: &mut [u8]) -> Written {
    calls::herd_view(view, f.herds[0], out)
}

fn write_totals(f: Farm, out: &mut [u8]) -> Written {
    test_totals::listing_through(f.herds, f.count, out)
}

fn write_by(call: Call, out: &mut [u8]) -> Written {
    match call {
        Call::Herd(view) => write_herd(view, farm(), out),
        Call::Totals => write_totals(farm(), out),
        Call::FileTotals => calls::file_totals_listing(Source::StandardInput, &PIGS, out),
        Call::FileHerd(view, herd) => calls::file_herd_view(
            view,
            Source::StandardInput,
            &PIGS,
            herd,
            out,
        ),
        Call::File(view) => calls::file_view(view, Source::StandardInput, &PIGS, out),
        Call::OfNoHerds => calls::file_herd_view(View::Figures, Source::StandardInput, b"", 0, out),
    }
}

// The call with the first `size` bytes of a buffer, as far as it has them.
fn write_part(call: Call, out: &mut [u8], size: usize) -> Written {
    let end = size.min(out.len());
    write_by(call, &mut out[..end])
}

// How many marks a buffer has.
fn marks(out: &[u8]) -> usize {
    out.iter().filter(|b| **b == MARK).count()
}

fn is_13(written: Written) -> bool {
    match written {
        Err(Refused(refusal, 0)) => refusal_numbers::number_of(refusal) == NUMBER_13,
        _ => false,
    }
}

// Is a buffer of this size refused with 13 and left as it was?
fn is_refused(call: Call, size: usize) -> bool {
    let mut out = [MARK; ROOM];
    let written = write_part(call, &mut out, size);
    is_13(written) && marks(&out) == ROOM
}

// How many of the sizes from 0 to before `length` are.
fn refused_sizes(call: Call, length: usize) -> usize {
    (0..length).filter(|size| is_refused(call, *size)).count()
}

// A buffer of this size: the answer, how many marks are left, and the bytes where the listing goes.
fn show(rt: &impl Print, call: Call, size: usize, length: usize) {
    let mut out = [MARK; ROOM];
    let written = write_part(call, &mut out, size);
    tell::written_line(rt, written);
    tell::number(rt, marks(&out) as u64);
    tell::line(rt, base::part_of(&out, 0, length));
}

// All sizes below the listing's length, the length, a longer one, and one that any listing fits.
fn sizes(rt: &impl Print, name: &[u8], call: Call, length: usize)
    requires { length ≤ 2048 }
{
    tell::line(rt, name);
    tell::number(rt, refused_sizes(call, length) as u64);
    show(rt, call, length, length);
    show(rt, call, length + 3, length);
    show(rt, call, ROOM, length);
}

fn main(rt: HostRuntime) {
    sizes(&rt, b"herd", Call::Herd(View::Figures), HERD_LENGTH);
    sizes(
        &rt,
        b"herd of a file",
        Call::FileHerd(View::Figures, 0),
        HERD_LENGTH,
    );
    sizes(&rt, b"totals", Call::Totals, TOTALS_LENGTH);
    sizes(&rt, b"totals of a file", Call::FileTotals, TOTALS_LENGTH);
    sizes(&rt, b"cuts", Call::Herd(View::Cuts), CUTS_LENGTH);
    sizes(
        &rt,
        b"cuts of a file",
        Call::FileHerd(View::Cuts, 0),
        CUTS_LENGTH,
    );
    sizes(
        &rt,
        b"cuts past the last herd",
        Call::FileHerd(View::Cuts, 1),
        0,
    );
    sizes(
        &rt,
        b"past the last herd",
        Call::FileHerd(View::Figures, 1),
        0,
    );
    sizes(
        &rt,
        b"far past the last herd",
        Call::FileHerd(View::Figures, usize::MAX),
        0,
    );
    sizes(&rt, b"of no herds", Call::OfNoHerds, 0);
    sizes(
        &rt,
        b"the notes of a whole file",
        Call::File(View::Notes),
        NOTES_LENGTH,
    );
    sizes(&rt, b"no reasons", Call::File(View::Reasons), 0);
}
