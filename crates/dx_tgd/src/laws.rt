// The laws of the canonical instance's nulls. The definitions alone carry them: no body computes anything.
ghost use Rattle.dx_tgd.specs.Placed.{NullsHavePlaces};

/// Each null of the canonical instance names a rule and a place that are there.
pub fn nulls_have_places()
    ensures { NullsHavePlaces }
{}
