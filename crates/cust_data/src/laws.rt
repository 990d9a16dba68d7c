//! Mixing and layers, worked out. The checker proves each statement, and no call does anything.

ghost use Rattle.cust_data.specs.Rows.{QuotientIsFloor, MixHasEnds, MixGoesDown, MixAtEnds, MixIsExact, MeanGoesDown, SmallMix, SmallLayers, SmallChanges, BoundsOfNames, FirstCause};

/// Division rounds towards minus infinity, for every number.
pub fn division_rounds_down()
    ensures { QuotientIsFloor }
{}

/// Mixing leads from the first number to the second, for all numbers.
pub fn mixing_has_ends()
    ensures { MixHasEnds }
{}

/// Numbers, mixed and averaged.
pub fn worked_numbers()
    ensures down { MixGoesDown }
    ensures ends { MixAtEnds }
    ensures exact { MixIsExact }
    ensures mean { MeanGoesDown }
{}

/// Two layers at two places.
pub fn worked_rows()
    ensures mixed { SmallMix }
    ensures layers { SmallLayers }
    ensures changes { SmallChanges }
{}

/// What a layer may be.
pub fn worked_refusals()
    ensures bounds { BoundsOfNames }
    ensures first { FirstCause }
{}
