// The laws of instances, null maps and value texts. The definitions alone carry them: no body computes anything.
ghost use Rattle.dx_instance.specs.Laws.{WidthsMakeInstance, NoValueTexts, PairsGive, SortedFactsAscend, ValueTextsDiffer};

/// The pairs of a null map give what the map gives.
pub fn pairs_give()
    ensures { PairsGive }
{}

/// The facts of tables whose rows ascend ascend.
pub fn sorted_facts_ascend()
    ensures { SortedFactsAscend }
{}

/// Tables that are as wide as those of a schema hold an instance of it.
pub fn facts_fit()
    ensures { WidthsMakeInstance }
{}

/// Two values with the same text are one.
pub fn value_texts_differ()
    ensures { ValueTextsDiffer }
{}

/// A text is no value's exactly if it begins with `?`, after which come no other `?` and no three numerals.
pub fn no_value_texts()
    ensures { NoValueTexts }
{}
