// The laws of query texts. The definitions alone carry them: no body computes anything.
ghost use Rattle.dx_query_text.specs.Laws.{FaultsArePlaced, NeverQueryAndFault, NeverSaidAndFaulty, OneQueryFault, OneQuery, OneText, OneTextFault, QueryOrFault, ReadPartsFit, ReadQueriesFit, TextOrFault, TextsHaveFewCells};

/// A text says the parts of one query, or it has one first fault as a text.
pub fn a_text_says_one_thing()
    ensures query { OneText }
    ensures fault { OneTextFault }
    ensures either { TextOrFault }
    ensures never_both { NeverQueryAndFault }
{}

/// A part has no more cells than its text has bytes.
pub fn texts_have_few_cells()
    ensures { TextsHaveFewCells }
{}

/// Over a target a text says one query, or it has one first fault, which has a place and a kind.
pub fn a_text_says_one_query()
    ensures query { OneQuery }
    ensures fault { OneQueryFault }
    ensures either { QueryOrFault }
    ensures never_both { NeverSaidAndFaulty }
    ensures placed { FaultsArePlaced }
{}

/// A query that a text says over a target fits it, if none of its parts has more than 64 atoms.
pub fn read_queries_fit()
    ensures parts { ReadPartsFit }
    ensures queries { ReadQueriesFit }
{}
