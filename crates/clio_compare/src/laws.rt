// The laws of comparisons. The definitions alone carry them: no body computes anything.
ghost use Rattle.clio_compare.specs.Laws.{ComparisonOrRefusal, ComparisonsAreSo};

/// There is a comparison of two mapping texts, or one reason to refuse it, and never both; and it is so.
pub fn a_comparison_or_a_refusal()
    ensures decided { ComparisonOrRefusal }
    ensures so { ComparisonsAreSo }
{}
