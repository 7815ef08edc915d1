// What the calls answer to a record that is handed in. The writing calls get a buffer that no listing fits, so that a
// good record's answer is 13.
use farm::{Farm, Herd};
use model::FarmAnswer;
use outputs::{names, total_names};
use printing::tell;
use views::View;

const SHORT: usize = 8;

// The answer's grams are zero where it is refused.
fn figures(rt: &impl Print, h: Herd) {
    let answer = calls::herd_figures(h);
    tell::checked_line(rt, answer.checked);
    tell::kilograms(rt, answer.figures.grams[names::N_EXCRETION]);
}

fn herd_listing(rt: &impl Print, h: Herd) {
    let mut out = [b'#'; SHORT];
    let written = calls::herd_view(View::Figures, h, &mut out);
    tell::written_line(rt, written);
    tell::line(rt, &out);
}

fn totals(rt: &impl Print, answer: FarmAnswer) {
    tell::checked_line(rt, answer.checked);
    tell::kilograms(rt, answer.totals.grams[total_names::N_EXCRETION]);
}

fn totals_listing(rt: &impl Print, f: Farm) {
    let mut out = [b'#'; SHORT];
    let written = test_totals::listing_through(f.herds, f.count, &mut out);
    tell::written_line(rt, written);
    tell::line(rt, &out);
}

pub fn of_herd(rt: &impl Print, h: Herd) {
    figures(rt, h);
    herd_listing(rt, h);
}

pub fn of_farm(rt: &impl Print, f: Farm) {
    totals(rt, test_totals::totals_through(f.herds, f.count));
    totals_listing(rt, f);
}

pub fn of_few(rt: &impl Print, herds: [Herd; test_totals::FEW], count: usize) {
    totals(rt, test_totals::totals_through(herds, count));
}
