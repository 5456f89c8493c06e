// Signal plans as they are stored, one to a disk sector: the record and its bytes.
#![tactic(auto)]

ghost use Rattle.plans.specs.Theorems.{TestsAreTheRules, EachPlanIsLegal, EncodingIsReadBack, AcceptedIsAPlan, BytesTellPlansApart};

pub mod fault;
pub mod plan;
mod rules;
pub mod stage;

// Carries the theorems on the record's code.
pub fn codec_stands()
    ensures rules { TestsAreTheRules }
    ensures legal { EachPlanIsLegal }
    ensures back { EncodingIsReadBack }
    ensures accepted { AcceptedIsAPlan }
    ensures apart { BytesTellPlansApart }
{}
