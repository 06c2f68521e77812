// The laws of printed rules. The definitions alone carry them: no body computes anything.
ghost use Rattle.clio_rule_laws.specs.Laws.{ClosingsAreWritable, LineRulesAreWritable, OneListBehind, OneRule, OneRuleText};
ghost use Rattle.clio_rule_laws.specs.Laws.{PrintedLinesAreRead, PrintedRulesAreRead, PrintedRulesDiffer};
ghost use Rattle.clio_rule_laws.specs.Laws.{ReadBehindIsOffered, ReadIsOffered};
ghost use Rattle.clio_rule_laws.specs.Laws.{SaidRulesArePrintable, SaidRulesAreReadAgain, SaidRulesAreWritable};
ghost use Rattle.clio_rule_laws.specs.Laws.{ShownIsAccepted, ShownRulesAreReadAgain};

/// The text of a rule that can be printed is read as the same rule, and no two such rules have one text.
pub fn a_printed_rule_is_read()
    ensures read { PrintedRulesAreRead }
    ensures differ { PrintedRulesDiffer }
{}

/// After a mapping text, the lines of printed rules are read as the same rules of that mapping.
pub fn printed_lines_are_read()
    ensures { PrintedLinesAreRead }
{}

/// The conversions and literals of the rules of a mapping text can be written: of the hand-written ones, of those of its
/// lines, and of closed ones.
pub fn rules_of_texts_can_be_written()
    ensures said { SaidRulesAreWritable }
    ensures lines { LineRulesAreWritable }
    ensures closed { ClosingsAreWritable }
{}

/// The rules that a mapping text says without a fault are read again after it.
pub fn rules_that_are_said_are_read_again()
    ensures { SaidRulesAreReadAgain }
{}

/// The rules that a mapping text says without a fault can be printed.
pub fn rules_that_are_said_can_be_printed()
    ensures { SaidRulesArePrintable }
{}

/// A text says one rule at most, and is read as one at most, and after a mapping as one list of rules.
pub fn a_text_says_one_rule()
    ensures text { OneRuleText }
    ensures rule { OneRule }
    ensures behind { OneListBehind }
{}

/// Rules that a text is read as have listed conversions alone, with as many arguments as they take.
pub fn rules_that_are_read_are_offered()
    ensures rule { ReadIsOffered }
    ensures behind { ReadBehindIsOffered }
{}

/// The rules of an accepted mapping text are printed as lines that are read as the same rules, and its sets with these lines
/// after them are accepted with the same mapping, without its conditions.
pub fn shown_rules_are_read_again()
    ensures read { ShownRulesAreReadAgain }
    ensures accepted { ShownIsAccepted }
{}
