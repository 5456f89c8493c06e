ghost use Rattle.check_bytes.specs.Theorems.{DivisionLeavesARemainder, OnlyOneRemainder};
ghost use Rattle.check_bytes.specs.Theorems.{CheckIsTheRemainder, NothingFed, OneByteMore, Examples};
ghost use Rattle.check_bytes.specs.Theorems.{OwnCheckLeavesNothing, DamageIsSeen};

// Remainders exist, and are unique.
pub fn remainders_stand()
    ensures exists { DivisionLeavesARemainder }
    ensures unique { OnlyOneRemainder }
{}

// The check is that remainder, whole and byte by byte.
pub fn checks_stand()
    ensures remainder { CheckIsTheRemainder }
    ensures nothing { NothingFed }
    ensures more { OneByteMore }
{}

// What a check is good for.
pub fn checks_detect()
    ensures own { OwnCheckLeavesNothing }
    ensures damage { DamageIsSeen }
{}

// The worked examples.
#[tactic(auto, unfolding(crate::specs::Polynomials::remainder, crate::specs::Checks::check_of))]
pub fn examples_stand()
    ensures { Examples }
{}
