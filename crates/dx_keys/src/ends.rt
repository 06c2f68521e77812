// Every chase ends. The definitions alone carry the law: no body computes anything.
ghost use Rattle.dx_keys.specs.Ends.{ClashHasAnswer, EndsOnce, EveryChaseAnswers, EveryChaseEnds, StepsAreFew};

/// Every chase ends. Key steps of an instance, one after the other, are at most as many as its values; and each instance of a
/// schema has a forced map, in whose image keys hold, or it has key steps, one after the other, that leave a clash; and not
/// both. Each such clash has a form in which `chase` answers it; so each stored instance of a schema has a forced map, in whose
/// image keys hold, or a clash that `chase` may answer.
pub fn every_chase_ends()
    ensures few { StepsAreFew }
    ensures ends { EveryChaseEnds }
    ensures once { EndsOnce }
    ensures clash { ClashHasAnswer }
    ensures answers { EveryChaseAnswers }
{}
