// A herd's notes, kind by kind, and the notes one after the other.
#![tactic(auto, using(crate::proofs::Steps::herd_steps))]

ghost use Rattle.std.specs.Prelude.{◌≡◌, ◌≤◌};
ghost use Rattle.amounts.specs.Units.{ten_thousandths};
ghost use Rattle.kinds.specs.Sound.{EnteredTo, SoundRoughage, SoundCattle, Sound, most_grams};
ghost use Rattle.notes.specs.Notes.{off_standard, off_share, free_entered, cattle_off_standard, cattle_off_share};
ghost use Rattle.notes.specs.Notes.{roughage_notes, cattle_notes, pigs_notes, no_notes};
ghost use Rattle.notes.specs.Notes.{notes_of, in_order};

use amounts::TENTHS;
use kinds::{Cattle, CattleKind, Entered, Inputs, Pigs, Roughage};
use notes::{COUNT, Notes};

// Below 0.7 or above 1.3 of the standard, in tenths; off the share by more than 0.2, in ten-thousandths.
const LOW: u64 = 7;

const HIGH: u64 = 13;

const OFF: u64 = 2000;

fn n_off_standard(standard: u64, entered: Entered) -> bool
    requires { (standard ≤ most_grams) × EnteredTo most_grams entered }
    ensures { result ≡ off_standard standard entered }
{
    match entered {
        Entered::Standard => false,
        Entered::Number(grams) => {
            TENTHS * grams < LOW * standard || HIGH * standard < TENTHS * grams
        }
    }
}

fn tan_off_standard(share: u64, entered: Entered) -> bool
    requires { (share ≤ ten_thousandths) × EnteredTo ten_thousandths entered }
    ensures { result ≡ off_share share entered }
{
    match entered {
        Entered::Standard => false,
        Entered::Number(fraction) => fraction + OFF < share || share + OFF < fraction,
    }
}

fn free_entered(free: i64) -> bool
    ensures { result ≡ free_entered free }
{
    free != 0
}

fn roughage_notes(r: Roughage) -> Notes
    requires { SoundRoughage r }
    ensures { result ≡ roughage_notes r }
{
    Notes {
        n_off_standard: n_off_standard(tables::standard(r.animalcategory), r.inp_n_excretion),
        tan_off_standard: tan_off_standard(tables::SHARE_NSOL, r.tan_fraction),
        free_factor: free_entered(r.free_correction_factor),
        share_lowered: false, // no yard
        factor_above_1: housing::above_ceiling(r),
    }
}

// 2.2 (02, W9); 01 has no such note on other cattle.
fn cattle_n_off_standard(kind: CattleKind, grams: u64) -> bool
    requires { grams ≤ most_grams }
    ensures { result ≡ cattle_off_standard kind grams }
{
    match kind {
        CattleKind::OtherCattle => false, // no standard
        CattleKind::DairyCow => n_off_standard(tables::DAIRY_STANDARD, Entered::Number(grams)),
    }
}

fn cattle_tan_off_standard(kind: CattleKind, entered: Entered) -> bool
    requires { EnteredTo ten_thousandths entered }
    ensures { result ≡ cattle_off_share kind entered }
{
    match kind {
        CattleKind::OtherCattle => false,
        CattleKind::DairyCow => tan_off_standard(tables::DAIRY_SHARE_NSOL, entered),
    }
}

fn cattle_notes(c: Cattle) -> Notes
    requires { SoundCattle c }
    ensures { result ≡ cattle_notes c }
{
    Notes {
        n_off_standard: cattle_n_off_standard(c.kind, c.inp_n_excretion),
        tan_off_standard: cattle_tan_off_standard(c.kind, c.tan_fraction),
        free_factor: free_entered(c.outdoor.free_correction_factor),
        share_lowered: yard::share_lowered(c.outdoor),
        factor_above_1: false, // a yard alone
    }
}

fn pigs_notes(p: Pigs) -> Notes
    ensures { result ≡ pigs_notes p }
{
    Notes {
        n_off_standard: false,
        tan_off_standard: false,
        free_factor: free_entered(p.free_correction_factor),
        share_lowered: false, // pigs have no yard
        factor_above_1: false, // none is asked of a pig house
    }
}

pub fn no_notes() -> Notes
    ensures { result ≡ no_notes }
{
    Notes::default()
}

#[tactic(auto, using(kinds::proofs::OfKind::of_kind), unfolding(notes::specs::Notes::notes_of))]
pub fn notes_of(inputs: Inputs) -> Notes
    requires { Sound inputs }
    ensures { result ≡ notes_of inputs }
{
    match inputs {
        Inputs::Roughage(r) => roughage_notes(r),
        Inputs::Cattle(c) => cattle_notes(c),
        Inputs::Pigs(p) => pigs_notes(p),
    }
}

// The notes one after the other, in 01's order, and then that of 02, W3.
pub fn in_order(n: Notes) -> [bool; COUNT]
    ensures { result ≡ in_order n }
{
    [
        n.n_off_standard,
        n.tan_off_standard,
        n.free_factor,
        n.share_lowered,
        n.factor_above_1,
    ]
}
