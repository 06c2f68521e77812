// The laws of rules that are read. The definitions alone carry them: no body computes anything.
ghost use Rattle.dx_tgd_text.specs.Laws.{ReadRulesAreOffered, ReadRulesFit, TextsHaveWholeRules};

/// The rule of a text without a fault fits its schemas, and its derived variables are made by listed conversions.
pub fn read_rules_fit()
    ensures fit { ReadRulesFit }
    ensures offered { ReadRulesAreOffered }
{}

/// The rules of a mapping text have atoms on both sides and names alone in the premise, and are no larger than the text.
pub fn texts_have_whole_rules()
    ensures { TextsHaveWholeRules }
{}
