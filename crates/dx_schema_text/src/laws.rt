// The laws of mapping texts. The definitions alone carry them: no body computes anything.
ghost use Rattle.dx_schema_text.specs.Laws.{MappingOrFault, NeverMappingAndFault, OneMappingFault, OneMapping, SaidIsOfVersion, SaidIsWritable, SpelledAreTexts, StandingGoesOn, TextsHaveFewRules, TooDeepAreSets};

/// A text says one mapping, or it has one first fault.
pub fn a_text_says_one_thing()
    ensures mapping { OneMapping }
    ensures fault { OneMappingFault }
    ensures either { MappingOrFault }
    ensures never_both { NeverMappingAndFault }
{}

/// The tokens that spell a mapping are exactly the texts of the form, and those that can stand are the fronts of texts.
pub fn texts_are_spelled()
    ensures spelled { SpelledAreTexts }
    ensures fronts { StandingGoesOn }
{}

/// A text is too deep exactly if the first token that can't stand is the word `set` of a set at depth 17.
pub fn too_deep_are_sets()
    ensures { TooDeepAreSets }
{}

/// A text is of version 1, 2 or 3. Before version 2 it says no conditions.
pub fn what_is_said_is_of_its_version()
    ensures { SaidIsOfVersion }
{}

/// The sets that a text says can be printed and are read again in a text of the same version.
pub fn what_is_said_is_writable()
    ensures { SaidIsWritable }
{}

/// Each set that a text says has fewer keys and dependencies together, and fewer refs, than the text has bytes.
pub fn texts_have_few_rules()
    ensures { TextsHaveFewRules }
{}
