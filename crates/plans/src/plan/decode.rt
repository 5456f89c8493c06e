// A plan from the bytes of a sector.
ghost use Rattle.std.specs.Prelude.{◌≡◌, ◌+◌, ◌*◌, drop, vec_items};
ghost use Rattle.std.specs.Option.{ok_or};
ghost use Rattle.plans.specs.declared.fault.PlanFault.TheVariants.{UnknownMovement};
ghost use Rattle.plans.specs.Stages.{movement_of};
ghost use Rattle.plans.specs.Bytes.{decoded, stages_in, stray};
ghost use Rattle.plans.specs.Told.{plan_of, Answered};

use crate::fault::PlanFault;
use crate::plan::{MARKER, Plan, VERSION};
use crate::stage::{Movement, Stage};
use std::alloc::Global;

impl Plan {
    // Tests the header's length, the marker, the version, the stages one by one, the padding, and
    // then what `new` tests.
    pub fn decode(heap: Global, bytes: &[u8]) -> Result<Plan, PlanFault>
        ensures { Answered plan_of result (decoded bytes.now) }
    {
        let [
            s,
            p,
            version,
            high,
            low,
            number,
            cycle,
            offset,
            count,
            body @ ..,
        ] = bytes
        else {
            return Err(PlanFault::Short);
        };
        if [*s, *p] != MARKER {
            return Err(PlanFault::NotAPlan);
        }
        if *version != VERSION {
            return Err(PlanFault::UnknownVersion(*version));
        }
        let stages = read_stages(heap, *count, body)?;
        if let Some(position) = first_stray(bytes, end_of(*count)) {
            return Err(PlanFault::NotPadding { position });
        }
        let junction = u16::from_be_bytes([*high, *low]);
        Plan::new(junction, *number, *cycle, *offset, stages)
    }
}

// The stages that `bytes` begins with.
fn read_stages(heap: Global, count: u8, bytes: &[u8]) -> Result<Vec<Stage>, PlanFault>
    ensures { Answered vec_items result (stages_in count 1 bytes.now) }
{
    let mut stages = Vec::new(heap);
    let mut rest = bytes;
    for i in 0..count {
        let [code, green, intergreen, tail @ ..] = rest else {
            return Err(PlanFault::Short);
        };
        let movement = read_movement(i + 1, *code)?;
        stages.push(Stage {
            movement,
            green: *green,
            intergreen: *intergreen,
        })?;
        rest = tail;
    }
    Ok(stages)
}

// The movement that stands in a stage's first byte.
fn read_movement(stage: u8, code: u8) -> Result<Movement, PlanFault>
    ensures { result ≡ ok_or (movement_of code) (UnknownMovement stage code) }
{
    Movement::try_from(code).map_err(|unknown| PlanFault::UnknownMovement {
        stage,
        code: unknown.0,
    })
}

// The position after the last stage: a header of nine bytes, and three bytes a stage.
fn end_of(count: u8) -> usize
    ensures { result ≡ 9 + 3 * count }
{
    9 + 3 * usize::from(count)
}

// The position of the first byte from `start` on that is not 0.
fn first_stray(bytes: &[u8], start: usize) -> Option<usize>
    ensures { result ≡ stray start (drop start bytes.now) }
{
    let skipped = bytes.iter().skip(start).position(|byte| *byte != 0)?;
    Some(start + skipped)
}
