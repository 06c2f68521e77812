// The laws of a run. The definitions alone carry them: no body computes anything.
ghost use Rattle.clio_top.specs.Promises.{AskedInOrder, ClashesAreOfTexts, DoneIsAsAsked, FilesHaveOwnNames};
ghost use Rattle.clio_top.specs.Promises.{MemoryIsNoReason, NoSolutionIsAClash, ReasonsHaveWords, RefusedOrPlanned, UsageIsOfWords};
ghost use Rattle.clio_top.specs.Completing.{AnswersArePlanned, DemoIsAClash, DemoIsPlanned, MappingIsShown, NoAnswerIsAClash, SmallIsPlanned, SolutionIsPlanned};
ghost use Rattle.clio_top.specs.Names.{PutsByName, ReadsByName};
ghost use Rattle.clio_top.specs.FilesOf.{ExchangesCanBeWritten};
ghost use Rattle.clio_top.specs.SmallWorld.{SmallIsWritten};
ghost use Rattle.clio_top.specs.KeyedWorlds.{ClashIsRefused, ClashIsThis, KeyedIsPlanned, KeyedIsWritten};

/// There is one reason to refuse a run, or a plan, and never both.
pub fn refused_or_planned()
    ensures { RefusedOrPlanned }
{}

/// What a run has done is what its words ask for, of the texts and files of some world, whether or not the inputs show what they hold:
/// an exchange is that of the mapping text and then, if that is accepted, of the source files in order; what is shown is of the
/// mapping text alone; a demo is of its own files. And it asks for these files alone.
pub fn over_anything()
    ensures done { DoneIsAsAsked }
    ensures asked { AskedInOrder }
{}

/// A clash, with which a run ends with status 3, is that of an accepted mapping text and of rows that have no solution; and if they
/// have none, within the limits, an exchange is refused with a clash.
pub fn clash_exactly_without_solution()
    ensures clash { ClashesAreOfTexts }
    ensures none { NoSolutionIsAClash }
{}

/// If there is a solution within the limits, an exchange is planned; an accepted mapping is shown; and so is the exchange of a demo's
/// files planned, or there is a clash. The answers of a query are planned, or there is a clash.
pub fn planned_if_there_is_something()
    ensures exchange { SolutionIsPlanned }
    ensures shown { MappingIsShown }
    ensures demo { DemoIsPlanned }
    ensures demo_clash { DemoIsAClash }
    ensures answers { AnswersArePlanned }
    ensures no_answer { NoAnswerIsAClash }
{}

/// There is a world in which an exchange is planned in each mode: a mapping of employees to persons, and two employees.
pub fn an_exchange_is_planned()
    ensures { SmallIsPlanned }
{}

/// What an exchange that is done there writes, in plain mode, is exactly five files and a summary, byte by byte.
pub fn an_exchange_writes_this()
    ensures { SmallIsWritten }
{}

/// In a world of two employees of one department, whose name is a key, an exchange is planned; what it writes when it is done, in
/// plain mode, is exactly six files and a summary: the department's two numbers, which are not known, are one, and the fold says so.
pub fn a_key_makes_one()
    ensures planned { KeyedIsPlanned }
    ensures written { KeyedIsWritten }
{}

/// In a world of an employee with two departments, and persons whose name is a key, an exchange is refused in each mode, with a clash
/// of these two rows, by these names.
pub fn a_clash_is_told()
    ensures refused { ClashIsRefused }
    ensures this { ClashIsThis }
{}

/// A run is refused with `Usage` exactly if its words say no command. Running out of memory is no reason to refuse, and
/// each reason has its word among the refusals.
pub fn usage_is_of_words()
    ensures usage { UsageIsOfWords }
    ensures memory { MemoryIsNoReason }
    ensures words { ReasonsHaveWords }
{}

/// The call `files` takes the exchange of any rows under a mapping that fits, as each accepted one does.
pub fn exchanges_can_be_written()
    ensures { ExchangesCanBeWritten }
{}

/// No two files that an exchange writes have one name.
pub fn files_have_own_names()
    ensures { FilesHaveOwnNames }
{}

/// Each file that a run asks for has a name of a fixed form, and so has each that it puts: whatever its mapping says,
/// none is outside the folder.
pub fn names_are_of_the_folder()
    ensures read { ReadsByName }
    ensures put { PutsByName }
{}
