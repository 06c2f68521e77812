// What holds of each printed rule.
ghost use Rattle.dx_rule_text.specs.Laws.{RulesAreOneLine};

/// The text of a rule is one line: it has no line feed if no literal of the rule has one, and no name of its tables
/// and conversions.
pub fn a_rule_is_one_line()
    ensures { RulesAreOneLine }
{}
