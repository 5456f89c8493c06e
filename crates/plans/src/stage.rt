// A stage of a plan: which movement has green, and for how long.
ghost use Rattle.std.specs.Prelude.{◌≡◌, ◌≤◌, Some};
ghost use Rattle.plans.specs.Stages.{movement_code, movement_read, stage_seconds};
ghost use Rattle.plans.specs.Texts.{movement_text, unknown_movement_text};

use std::error::Error;
use std::fmt;

#[derive(Clone, Copy, Debug, PartialEq, Eq)]
pub enum Movement {
    MainRoad,
    SideRoad,
    TurningTraffic,
    Pedestrians,
}

// A byte that stands for no movement.
#[derive(Clone, Copy, Debug, PartialEq, Eq)]
pub struct UnknownMovement(pub u8);

impl From<Movement> for u8 {
    ghost from_gives = { λ movement code. code ≡ movement_code movement };

    fn from(movement: Movement) -> u8 {
        match movement {
            Movement::MainRoad => 1,
            Movement::SideRoad => 2,
            Movement::TurningTraffic => 3,
            Movement::Pedestrians => 4,
        }
    }
}

impl TryFrom<u8> for Movement {
    type Error = UnknownMovement;

    ghost try_from_gives = { λ code r. r ≡ movement_read code };

    fn try_from(code: u8) -> Result<Movement, UnknownMovement> {
        match code {
            1 => Ok(Movement::MainRoad),
            2 => Ok(Movement::SideRoad),
            3 => Ok(Movement::TurningTraffic),
            4 => Ok(Movement::Pedestrians),
            _ => Err(UnknownMovement(code)),
        }
    }
}

impl fmt::Display for Movement {
    ghost output = { λ movement. Some (movement_text movement) };

    fn fmt<W: fmt::Write>(&self, f: &mut fmt::Formatter<W>) -> fmt::Result {
        f.write_str(match self {
            Movement::MainRoad => "main road",
            Movement::SideRoad => "side road",
            Movement::TurningTraffic => "turning traffic",
            Movement::Pedestrians => "pedestrians",
        })
    }
}

impl fmt::Display for UnknownMovement {
    ghost output = { λ e. Some (unknown_movement_text e) };

    fn fmt<W: fmt::Write>(&self, f: &mut fmt::Formatter<W>) -> fmt::Result {
        write!(f, "no movement has the code {}", self.0)
    }
}

impl Error for UnknownMovement {}

// Times in seconds.
#[derive(Clone, Copy, Debug, PartialEq, Eq)]
pub struct Stage {
    pub movement: Movement,
    pub green: u8,
    pub intergreen: u8,
}

impl Stage {
    // How long the stage takes.
    pub fn seconds(self) -> u16
        ensures value { result ≡ stage_seconds self }
        ensures bound { result ≤ 510 }
    {
        u16::from(self.green) + u16::from(self.intergreen)
    }
}
