// The edited farm's file (02, W5), so that edits can be kept.
use base::refusals::Refused;
use console::{Ended, Surroundings, messages};
use farm::{Farm, Refusal};
use limits::Source;
use views::View;

fn print_refused(rt: &impl Surroundings, source: Source, refusal: Refusal, record: usize) -> Ended {
    match printing::print_refusal(rt, refusal, record) {
        Ok(_) => { messages::edited_refused(rt, source, refusal_numbers::number_of(refusal)) }
        Err(error) => messages::unwritten(rt, error),
    }
}

// Where it is printed, the run ends as its steps did.
fn print_file(rt: &impl Surroundings, file: &[u8], before: Ended) -> Ended {
    match streams::write_all(rt, file) {
        Ok(_) => before,
        Err(error) => messages::unwritten(rt, error),
    }
}

// The file that says the farm's herds; or the refusal's line, where it would be too long.
pub fn print_farm(rt: &impl Surroundings, farm: Farm, source: Source, before: Ended) -> Ended {
    let mut file: [u8; limits::COOPERATIVE_BYTES] = base::room();
    match view_calls::view_by_value(View::File, farm, &mut file) {
        Ok(n) => print_file(rt, base::part_of(&file, 0, n), before),
        Err(Refused(refusal, record)) => print_refused(rt, source, refusal, record),
    }
}
