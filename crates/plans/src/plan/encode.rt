// A plan as the bytes of its record: 0-1 the marker SP, 2 the version, 3-4 the junction's number
// with the high byte first, 5 the plan's number, 6 the cycle length, 7 the offset, 8 the number of
// stages; then for each stage its movement, its green and its intergreen. Zeros fill the rest of a
// sector.
ghost use Rattle.std.specs.Prelude.{◌≡◌, length, IfOk};
ghost use Rattle.plans.specs.Bytes.{encoded, header_bytes, stage_bytes};
ghost use Rattle.plans.specs.Told.{plan_of};

use crate::plan::{MARKER, Plan, VERSION};
use crate::stage::Stage;
use std::alloc::{AllocError, Global};

impl Plan {
    pub fn encode(&self, heap: Global) -> Result<Vec<u8>, AllocError>
        ensures { IfOk result (λ v. v.items ≡ encoded (plan_of self.now)) }
    {
        let mut bytes = Vec::from_slice(heap, &self.header())?;
        for stage in &self.values.stages {
            bytes.extend_from_slice(&bytes_of(*stage))?;
        }
        Ok(bytes)
    }

    fn header(&self) -> [u8; 9]
        ensures { result ≡ header_bytes (plan_of self.now) }
    {
        let [s, p] = MARKER;
        let [high, low] = self.values.junction.to_be_bytes();
        [
            s,
            p,
            VERSION,
            high,
            low,
            self.values.number,
            self.values.cycle,
            self.values.offset,
            self.count(),
        ]
    }

    // A legal plan has at most eight stages.
    fn count(&self) -> u8
        ensures { result ≡ length (plan_of self.now).stages }
    {
        self.values.stages.len() as u8
    }
}

fn bytes_of(stage: Stage) -> [u8; 3]
    ensures { result ≡ stage_bytes stage }
{
    [stage.movement.into(), stage.green, stage.intergreen]
}
