// 02, W8, of a farm's record, which for a caller is a lent slice of herds and a count (02, W12): whether the
// nh3_nlivestock of its first `count` entries passes a line of so many grams. A count beyond the slice, or beyond the
// herds that any farm may have, is refusal 9 with record 0, as in crate `farm_calls`.
#![tactic(auto)]

ghost use Rattle.lent_line.specs.Lines.{AnswersIn};

use above_line::LineAnswer;
use farm::Herd;
use lent::load;

pub fn farm_above_line(herds: &[Herd], count: usize, line: u64) -> LineAnswer
    ensures { AnswersIn herds.now count line result }
{
    line_calls::above_by_value(load(herds, count), line)
}
