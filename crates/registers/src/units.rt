ghost use Rattle.std.specs.Prelude.{◌≡◌};
ghost use Rattle.registers.specs.Records.{moved_record, believed, moved, recalled, all_zero};

use drives::numbers::PhysicalCylinder;
use drives::parts::Direction;

// What the controller notes of a unit: the cylinder where it believes the heads to be (PCN).
#[derive(Clone, Copy)]
pub struct UnitRecord {
    pub cylinder: PhysicalCylinder,
}

// The records of units 0 to 3.
#[derive(Clone, Copy)]
pub struct UnitRecords {
    pub of: [UnitRecord; 4],
}

// The record follows a step pulse.
fn follow(unit: &mut UnitRecord, direction: Direction)
    ensures { unit.new ≡ moved_record direction unit.old }
{
    let cylinder = unit.cylinder.0;
    unit.cylinder = PhysicalCylinder(match direction {
        Direction::Inward => cylinder.wrapping_add(1),
        Direction::Outward => cylinder.wrapping_sub(1),
    });
}

impl UnitRecords {
    // All at cylinder 0.
    #[tactic(auto, unfolding(crate::specs::Records::all_zero))]
    pub fn new() -> UnitRecords
        ensures { result ≡ all_zero }
    {
        let cylinder = PhysicalCylinder(0);
        UnitRecords {
            of: [UnitRecord { cylinder }; 4],
        }
    }

    // Where the controller believes the heads of a unit to be; 0 for a unit that has no record.
    #[tactic(auto, unfolding(crate::specs::Records::believed))]
    pub fn believed(&self, unit: u8) -> PhysicalCylinder
        ensures { result.0 ≡ believed self.now unit }
    {
        self.of
            .get(unit as usize)
            .map_or(PhysicalCylinder(0), |record| record.cylinder)
    }

    // The unit's record follows a step pulse.
    #[tactic(auto, unfolding(crate::specs::Records::moved))]
    pub fn follow_pulse(&mut self, unit: u8, direction: Direction)
        ensures { self.new ≡ moved self.old unit direction }
    {
        // no `get_mut`: of an array it does not say what the array is afterwards
        if unit < 4 {
            follow(&mut self.of[unit as usize], direction);
        }
    }

    // The unit's record goes back to cylinder 0.
    #[tactic(auto, unfolding(crate::specs::Records::recalled))]
    pub fn recall(&mut self, unit: u8)
        ensures { self.new ≡ recalled self.old unit }
    {
        if unit < 4 {
            self.of[unit as usize].cylinder = PhysicalCylinder(0);
        }
    }
}
