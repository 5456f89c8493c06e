// A fault in words.
ghost use Rattle.std.specs.Prelude.{Some, codes};
ghost use Rattle.std.specs.Fmt.{◌++?◌, DisplaysOnOk, decimal};
ghost use Rattle.plans.specs.Texts.{fault_text};

use crate::fault::PlanFault;
use std::error::Error;
use std::fmt;

impl fmt::Display for PlanFault {
    ghost output = { λ fault. Some (fault_text fault) };

    fn fmt<W: fmt::Write>(&self, f: &mut fmt::Formatter<W>) -> fmt::Result {
        match *self {
            PlanFault::Short => f.write_str("the bytes end before the plan does"),
            PlanFault::NotAPlan => f.write_str("the bytes do not begin with the marker SP"),
            PlanFault::UnknownVersion(version) => wrong(f, "the format's version", version, "1"),
            PlanFault::UnknownMovement { stage, code } => {
                wrong_in(f, stage, "the movement's code", code, "1 to 4")
            }
            PlanFault::NotPadding { position } => {
                write!(f, "byte {position} comes after the plan and is not 0")
            }
            PlanFault::NoJunction => f.write_str("the junction number is 0"),
            PlanFault::NoNumber => f.write_str("the plan number is 0"),
            PlanFault::CycleOutOfRange(s) => wrong(
                f,
                "the cycle length in seconds",
                s,
                "20 to 240",
            ),
            PlanFault::OffsetOutOfRange(s) => {
                wrong(f, "the offset in seconds", s, "below the cycle length")
            }
            PlanFault::StageCount(n) => wrong(f, "the number of stages", n, "2 to 8"),
            PlanFault::GreenTooShort { stage, seconds } => {
                wrong_in(f, stage, "the green in seconds", seconds, "4 or more")
            }
            PlanFault::IntergreenOutOfRange { stage, seconds } => {
                wrong_in(f, stage, "the intergreen in seconds", seconds, "3 to 15")
            }
            PlanFault::CycleNotFilled { seconds: s } => {
                wrong(f, "the stages' time in seconds", s, "the cycle length")
            }
            PlanFault::Memory => f.write_str("there is no memory for the plan"),
        }
    }
}

impl Error for PlanFault {}

// A value and what it should be.
fn wrong<W: fmt::Write, D: fmt::Display + Drop>(
    f: &mut fmt::Formatter<W>,
    what: &str,
    found: D,
    wanted: &str,
) -> fmt::Result
    ensures { DisplaysOnOk W.write_str_gives f.old result (Some what.now ++? Some (codes " is ") ++? D.output found ++? Some (codes ", not ") ++? Some wanted.now) f.new }
{
    write!(f, "{what} is {found}, not {wanted}")
}

// The same of a stage.
fn wrong_in<W: fmt::Write>(
    f: &mut fmt::Formatter<W>,
    stage: u8,
    what: &str,
    found: u8,
    wanted: &str,
) -> fmt::Result
    ensures { DisplaysOnOk W.write_str_gives f.old result (Some (codes "in stage ") ++? Some (decimal stage) ++? Some (codes " ") ++? Some what.now ++? Some (codes " is ") ++? Some (decimal found) ++? Some (codes ", not ") ++? Some wanted.now) f.new }
{
    write!(f, "in stage {stage} {what} is {found}, not {wanted}")
}
