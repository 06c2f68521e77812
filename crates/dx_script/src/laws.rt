// The laws of scripts. The definitions alone carry them: no body computes anything.
ghost use Rattle.dx_script.specs.Laws.{GeneratedFit, MatchTableIsRows, MeaningIsUnique, PlainMeansCanonical, RewrittenMeansUncovered, ScriptMeansLeft};

/// The match table of a rule's step is the rows of the rule.
pub fn match_table_is_rows()
    ensures { MatchTableIsRows }
{}

/// A script of rules means the rows of the rules, and the facts of the places that its keep steps leave.
pub fn script_means_left()
    ensures { ScriptMeansLeft }
{}

/// The plain script means the canonical instance.
pub fn plain_means_canonical()
    ensures { PlainMeansCanonical }
{}

/// The rewritten script means the uncovered part of the canonical instance.
pub fn rewritten_means_uncovered()
    ensures { RewrittenMeansUncovered }
{}

/// The plain and the rewritten script fit.
pub fn generated_fit()
    ensures { GeneratedFit }
{}

/// A script has one meaning at most on the rows of a source.
pub fn meaning_is_unique()
    ensures { MeaningIsUnique }
{}
