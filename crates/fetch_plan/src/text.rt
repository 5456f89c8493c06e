// Bytes in hexadecimal.
use std::fmt;

#[derive(Clone, Copy)]
pub struct Hex<'a>(pub &'a [u8]);

impl fmt::Display for Hex<'_> {
    fn fmt<W: fmt::Write>(&self, f: &mut fmt::Formatter<W>) -> fmt::Result {
        for (i, byte) in self.0.iter().enumerate() {
            if i > 0 {
                f.write_str(" ")?;
            }
            write!(f, "{byte:02X}")?;
        }
        Ok(())
    }
}

// What these contracts leave open: that printing succeeds where the writer does.
#[cfg(test)]
mod tests {
    use images::blank::BlankFault;
    use images::layers::{StringRefusal, UnitRefusal};
    use images::refusal::{ImageFault, TrailerField};
    use plans::fault::PlanFault;
    use plans::stage::UnknownMovement;
    use std::test::Fail;

    #[test]
    fn faults_of_plans_print(rt: HostRuntime) -> Result<(), Fail> {
        let fault = PlanFault::GreenTooShort {
            stage: 2,
            seconds: 3,
        };
        let told = format!(in rt.alloc(); "{fault}")?;
        assert_eq!(rt;
            told.as_str(),
            "in stage 2 the green in seconds is 3, not 4 or more"
        );
        let fault = PlanFault::StageCount(9);
        let told = format!(in rt.alloc(); "{fault}")?;
        assert_eq!(rt; told.as_str(), "the number of stages is 9, not 2 to 8");
        let unknown = UnknownMovement(7);
        let told = format!(in rt.alloc(); "{unknown}")?;
        assert_eq!(rt; told.as_str(), "no movement has the code 7");
        Ok(())
    }

    #[test]
    fn refusals_of_images_print(rt: HostRuntime) -> Result<(), Fail> {
        let refused = StringRefusal {
            unit: 2,
            refusal: UnitRefusal {
                fault: ImageFault::WrongDistance,
                position: 147,
            },
        };
        let told = format!(in rt.alloc(); "{refused}")?;
        assert_eq!(rt; told.as_str(), "refused 4, unit 2, byte 147");
        let fault = BlankFault::OutOfBounds(TrailerField::Heads);
        let told = format!(in rt.alloc(); "{fault}")?;
        assert_eq!(rt; told.as_str(), "the geometry is out of bounds");
        let fault = BlankFault::NoMemory;
        let told = format!(in rt.alloc(); "{fault}")?;
        assert_eq!(rt; told.as_str(), "there is no memory for the image");
        Ok(())
    }
}
