// The tests of a plan's values, each written once.
ghost use Rattle.std.specs.Prelude.{◌≡◌, ◌≤◌, length};
ghost use Rattle.plans.specs.Rules.{answer, data_of, fault_in, stage_fault, times_fault, total};

use crate::fault::PlanFault;
use crate::plan::PlanValues;
use crate::stage::Stage;

const SHORTEST_CYCLE: u8 = 20;

const LONGEST_CYCLE: u8 = 240;

const FEWEST_STAGES: usize = 2;

const MOST_STAGES: usize = 8;

const SHORTEST_GREEN: u8 = 4;

const SHORTEST_INTERGREEN: u8 = 3;

const LONGEST_INTERGREEN: u8 = 15;

impl PlanValues {
    // Answers the first fault, if there is one.
    pub(crate) fn check(&self) -> Result<(), PlanFault>
        ensures { result ≡ answer tt (fault_in (data_of self.now)) }
    {
        if self.junction == 0 {
            return Err(PlanFault::NoJunction);
        }
        if self.number == 0 {
            return Err(PlanFault::NoNumber);
        }
        if !(SHORTEST_CYCLE..=LONGEST_CYCLE).contains(&self.cycle) {
            return Err(PlanFault::CycleOutOfRange(self.cycle));
        }
        if self.offset >= self.cycle {
            return Err(PlanFault::OffsetOutOfRange(self.offset));
        }
        let stages = self.stages.as_slice();
        if !(FEWEST_STAGES..=MOST_STAGES).contains(&stages.len()) {
            return Err(PlanFault::StageCount(stages.len()));
        }
        check_stages(stages)?;
        let seconds = total_seconds(stages);
        if seconds != u16::from(self.cycle) {
            return Err(PlanFault::CycleNotFilled { seconds });
        }
        Ok(())
    }
}

// Answers the first stage with a time out of range, if there is one.
fn check_stages(stages: &[Stage]) -> Result<(), PlanFault>
    requires { length stages.now ≤ 8 }
    ensures { result ≡ answer tt (stage_fault 1 stages.now) }
{
    for (i, stage) in stages.iter().enumerate() {
        check_times(i as u8 + 1, *stage)?;
    }
    Ok(())
}

fn check_times(number: u8, stage: Stage) -> Result<(), PlanFault>
    ensures { result ≡ answer tt (times_fault number stage) }
{
    if stage.green < SHORTEST_GREEN {
        return Err(PlanFault::GreenTooShort {
            stage: number,
            seconds: stage.green,
        });
    }
    if !(SHORTEST_INTERGREEN..=LONGEST_INTERGREEN).contains(&stage.intergreen) {
        return Err(PlanFault::IntergreenOutOfRange {
            stage: number,
            seconds: stage.intergreen,
        });
    }
    Ok(())
}

// How long all stages take together.
fn total_seconds(stages: &[Stage]) -> u16
    requires { length stages.now ≤ 8 }
    ensures { result ≡ total stages.now }
{
    stages.iter().map(|stage| stage.seconds()).sum()
}
