ghost use Rattle.std.specs.Prelude.{Some};
ghost use Rattle.std.specs.Fmt.{styled_text};
ghost use Rattle.check_bytes.specs.Rules.{generator_of, generator_text};
ghost use Rattle.std.proofs.Common.{rules};

use crate::crc::Crc16;
use crate::lrc::Lrc16;
use crate::rule::CheckRule;
use std::fmt;

// A rule chosen at run time.
#[derive(Clone, Copy, Debug, PartialEq, Eq)]
pub enum CheckKind {
    Crc,
    Lrc,
}

impl CheckRule for CheckKind {
    ghost generator = { generator_of };

    ghost degree = { λ _. 16 };

    ghost shaped = { Prim.search rules };

    ghost narrow = { Prim.search rules };

    fn width(&self) -> u8 {
        match *self {
            CheckKind::Crc => Crc16.width(),
            CheckKind::Lrc => Lrc16.width(),
        }
    }

    fn feed(&self, register: u32, byte: u8) -> u32 {
        match *self {
            CheckKind::Crc => Crc16.feed(register, byte),
            CheckKind::Lrc => Lrc16.feed(register, byte),
        }
    }
}

// The generator as it is written.
impl fmt::Display for CheckKind {
    ghost output = { λ kind. Some (generator_text kind) };

    ghost styled_output = { λ kind spec. Some (styled_text spec (generator_text kind)) };

    fn fmt<W: fmt::Write>(&self, f: &mut fmt::Formatter<W>) -> fmt::Result {
        f.pad(match *self {
            CheckKind::Crc => "x^16+x^12+x^5+1",
            CheckKind::Lrc => "x^16+1",
        })
    }
}
