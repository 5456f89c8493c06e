// A plan in words.
ghost use Rattle.std.specs.Prelude.{◌≡◌, ◌≤◌, Some};
ghost use Rattle.std.specs.Fmt.{DisplaysOnOk};
ghost use Rattle.plans.specs.Texts.{plan_text, stage_text};
ghost use Rattle.plans.specs.Told.{plan_of};

use crate::plan::{Plan, PlanValues};
use crate::stage::Stage;
use std::fmt;

// A line for the plan, and one for each stage with the second of the cycle where it starts.
impl fmt::Display for Plan {
    ghost output = { λ plan. Some (plan_text (plan_of plan)) };

    fn fmt<W: fmt::Write>(&self, f: &mut fmt::Formatter<W>) -> fmt::Result {
        let PlanValues {
            junction,
            number,
            cycle,
            offset,
            ..
        } = &self.values;
        write!(
            f,
            "junction {junction}, plan {number}, cycle {cycle} s, offset {offset} s"
        )?;
        let mut start: u16 = 0;
        for (i, stage) in self.stages().iter().enumerate() {
            write_stage(f, i + 1, start, *stage)?;
            start += stage.seconds();
        }
        Ok(())
    }
}

// A line of its own for the stage that begins at the second `start`.
fn write_stage<W: fmt::Write>(
    f: &mut fmt::Formatter<W>,
    number: usize,
    start: u16,
    stage: Stage,
) -> fmt::Result
    ensures { DisplaysOnOk W.write_str_gives f.old result (Some (stage_text number start stage)) f.new }
{
    let (movement, green, intergreen) = (stage.movement, stage.green, stage.intergreen);
    write!(
        f,
        "\n  stage {number}: {movement}, green {green} s from second {start}, then {intergreen} s intergreen"
    )
}
