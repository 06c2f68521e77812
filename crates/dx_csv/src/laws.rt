// The laws of reading and of printing. The definitions alone carry them: no body computes anything.
ghost use Rattle.dx_csv.specs.Laws.{OneRowFault, NeverTableAndFault, PrintedReadsBack, TableIsOne, TableOrFault, TableTextsDiffer};

/// Records are a table of one list of rows, or have one fault, and never both.
pub fn one_reading()
    ensures table { TableIsOne }
    ensures fault { OneRowFault }
    ensures either { TableOrFault }
    ensures never_both { NeverTableAndFault }
{}

/// What `print_records` prints of records with a field each is read as these records.
pub fn printed_reads_back()
    ensures { PrintedReadsBack }
{}

/// Tables with the same columns and different rows have different texts.
pub fn table_texts_differ()
    ensures { TableTextsDiffer }
{}
