// 02, W8: whether a farm's nh3_nlivestock passes a line of so many grams: the call on a file; and the same of a farm by
// value, for the call that has loaded one. A file of any bytes and a record of any content are answered, with exactly
// one refusal or with yes or no and how many herds were added up.
#![tactic(auto)]

ghost use Rattle.above_line.specs.Answers.{FarmAnswers};
ghost use Rattle.line_calls.specs.Files.{FileAnswers};

use above_line::LineAnswer;
use farm::Farm;
use limits::Source;

// Of a farm by value.
pub fn above_by_value(farm: Farm, line: u64) -> LineAnswer
    ensures { FarmAnswers line farm result }
{
    checks::check_farm(farm)?;
    Ok(farm_above::above(farm, line))
}

// Of a file.
pub fn file_above_line(source: Source, s: &[u8], line: u64) -> LineAnswer
    ensures { FileAnswers source s.now line result }
{
    let answer = farm_file::read(source, s);
    answer.checked?;
    Ok(farm_above::above(answer.farm, line))
}
