// Theorems over the port: what its calls may alter, and that its commands end.
#![tactic(auto)]

ghost use Rattle.port_laws.specs.OfUnits.{OtherUnitsStay, HeldUnitsStay};

// Which units a call may alter.
#[tactic(auto, using(crate::proofs::Units::other_units, crate::proofs::Holding::held_units))]
pub fn units_stand()
    ensures others { OtherUnitsStay }
    ensures held { HeldUnitsStay }
{}

ghost use Rattle.port_laws.specs.OfRest.{RestStays, RestStaysAfterCalls, TransfersKeepRest, FormatsKeepRest};

// Memory that the drives do not name stays as it is.
#[tactic(auto, using(crate::proofs::Rest::rest_stays, crate::proofs::Rest::rest_after))]
pub fn rest_stands()
    ensures calls { RestStays }
    ensures after { RestStaysAfterCalls }
    ensures transfers { TransfersKeepRest }
    ensures formats { FormatsKeepRest }
{}

ghost use Rattle.port_laws.specs.OfEnds.{CommandsEnd};

// That every command ends.
#[tactic(auto, using(crate::proofs::Lasting::commands_end))]
pub fn ends_stand()
    ensures { CommandsEnd }
{}
