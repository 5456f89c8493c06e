// Makes a plan from its values, and reads them.
ghost use Rattle.std.specs.Prelude.{◌≡◌, ◌≤◌, length};
ghost use Rattle.plans.specs.Rules.{PlanData, data_of, judged};
ghost use Rattle.plans.specs.Told.{plan_of, told};

use crate::fault::PlanFault;
use crate::plan::{Plan, PlanValues};
use crate::stage::Stage;

impl TryFrom<PlanValues> for Plan {
    type Error = PlanFault;

    ghost try_from_gives = { λ values r. told r ≡ judged (data_of values) };

    fn try_from(values: PlanValues) -> Result<Plan, PlanFault> {
        values.check()?;
        Ok(Plan { values })
    }
}

impl Plan {
    pub fn new(
        junction: u16,
        number: u8,
        cycle: u8,
        offset: u8,
        stages: Vec<Stage>,
    ) -> Result<Plan, PlanFault>
        ensures { told result ≡ judged (record { junction = junction; number = number; cycle = cycle; offset = offset; stages = stages.items }) }
    {
        Plan::try_from(PlanValues {
            junction,
            number,
            cycle,
            offset,
            stages,
        })
    }

    pub fn junction(&self) -> u16
        ensures { result ≡ (plan_of self.now).junction }
    {
        self.values.junction
    }

    pub fn number(&self) -> u8
        ensures { result ≡ (plan_of self.now).number }
    {
        self.values.number
    }

    pub fn cycle(&self) -> u8
        ensures { result ≡ (plan_of self.now).cycle }
    {
        self.values.cycle
    }

    pub fn offset(&self) -> u8
        ensures { result ≡ (plan_of self.now).offset }
    {
        self.values.offset
    }

    pub fn stages(&self) -> &[Stage]
        ensures value { result.now ≡ (plan_of self.now).stages }
        ensures few { length result.now ≤ 8 }
    {
        self.values.stages.as_slice()
    }
}
