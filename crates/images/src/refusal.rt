ghost use Rattle.std.specs.Prelude.{◌≡◌};
ghost use Rattle.images.specs.declared.refusal.ImageFault.TheVariants.{OutOfBounds};
ghost use Rattle.images.specs.Fields.{field_of};
ghost use Rattle.images.specs.Refusals.{fault_number, fault_position};

use drives::geometry::Dimension;

// The trailer's fields that have bounds.
#[derive(Clone, Copy, Debug, PartialEq, Eq)]
pub enum TrailerField {
    Cylinders,
    Heads,
    Slots,
    Length,
    Zeros,
}

// Why an image is refused.
#[derive(Clone, Copy, Debug, PartialEq, Eq)]
pub enum ImageFault {
    TooShort,
    NotMarked,
    OutOfBounds(TrailerField),
    WrongDistance,
}

impl From<Dimension> for TrailerField {
    ghost from_gives = { λ dimension field. field ≡ field_of dimension };

    fn from(dimension: Dimension) -> TrailerField {
        match dimension {
            Dimension::Cylinders => TrailerField::Cylinders,
            Dimension::Heads => TrailerField::Heads,
            Dimension::Slots => TrailerField::Slots,
            Dimension::Length => TrailerField::Length,
        }
    }
}

impl From<TrailerField> for ImageFault {
    ghost from_gives = { λ field fault. fault ≡ OutOfBounds field };

    fn from(field: TrailerField) -> ImageFault {
        ImageFault::OutOfBounds(field)
    }
}

impl ImageFault {
    // The refusal's number.
    pub fn number(self) -> u8
        ensures { result ≡ fault_number self }
    {
        match self {
            ImageFault::TooShort => 1,
            ImageFault::NotMarked => 2,
            ImageFault::OutOfBounds(_) => 3,
            ImageFault::WrongDistance => 4,
        }
    }

    // The position of the byte that it is about, in an image of so many bytes.
    pub fn position(self, size: usize) -> usize
        ensures { result ≡ fault_position self size }
    {
        let back = match self {
            ImageFault::TooShort => return 0,
            ImageFault::NotMarked => 4,
            ImageFault::OutOfBounds(TrailerField::Cylinders) => 16,
            ImageFault::OutOfBounds(TrailerField::Heads) => 14,
            ImageFault::OutOfBounds(TrailerField::Slots) => 13,
            ImageFault::OutOfBounds(TrailerField::Length) => 12,
            ImageFault::OutOfBounds(TrailerField::Zeros) => 10,
            ImageFault::WrongDistance => 8,
        };
        size.saturating_sub(back)
    }
}
