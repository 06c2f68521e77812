// The laws of documents and of nested texts. The definitions alone carry them: no body computes anything.
ghost use Rattle.dx_json.specs.Laws.{FactsAreOne, DocumentFactsFit, FactsOrFault, OneDocumentFault, HasNestedText, NestedTextIsOne, NeverFactsAndFault};

/// Bytes say one list of facts of a root or have one first fault, and never both.
pub fn one_reading()
    ensures facts { FactsAreOne }
    ensures fault { OneDocumentFault }
    ensures either { FactsOrFault }
    ensures never_both { NeverFactsAndFault }
{}

/// The facts that bytes say of a root fit the tables of its schema.
pub fn facts_fit()
    ensures { DocumentFactsFit }
{}

/// A root of an instance has one nested text.
pub fn one_nested_text()
    ensures one { NestedTextIsOne }
    ensures some { HasNestedText }
{}
