// Theorems over strings of drives, rows of bytes and images. Each function carries the theorems that its contract names.
#![tactic(auto)]

ghost use Rattle.laws.specs.OfStrings.{WhatNeverChanges, OtherUnitsStay, HeldStaysProtected, StringsStaySound};
ghost use Rattle.laws.specs.OfStrings.{MarksReadBack, BytesReadBack};

// What a change leaves alone, what stays sound, and what shows after it.
pub fn changes_stand()
    ensures fixed { WhatNeverChanges }
    ensures others { OtherUnitsStay }
    ensures sound { HeldStaysProtected }
    ensures strings { StringsStaySound }
    ensures marks { MarksReadBack }
    ensures bytes { BytesReadBack }
{}

ghost use Rattle.laws.specs.OfRows.{WhereThingsLie, EveryByteIsNamed, ExactlyThatByteChanges};

// Where a unit's marks and bytes lie in its row, that its meaning and its rest are all of the row, and what a change
// does to the row.
pub fn rows_stand()
    ensures lie { WhereThingsLie }
    ensures named { EveryByteIsNamed }
    ensures exactly { ExactlyThatByteChanges }
{}

ghost use Rattle.laws.specs.OfImages.{AcceptedImagesHaveTheirShape, RefusedImagesHaveNoPlaces};
ghost use Rattle.laws.specs.OfImages.{BlankImagesAreAccepted, WorkedDistances, ReadOnlyTheTrailer};

// What the check of an image means for a new unit over it, what it reads, and which images it accepts.
pub fn images_stand()
    ensures accepted { AcceptedImagesHaveTheirShape }
    ensures refused { RefusedImagesHaveNoPlaces }
    ensures blank { BlankImagesAreAccepted }
    ensures worked { WorkedDistances }
    ensures trailer { ReadOnlyTheTrailer }
{}
