// The laws of the book. The definitions alone carry them: no body computes anything.
ghost use Rattle.dx_model.specs.Laws.{BeforeIsOrder, BlockIsClosed, BlockServes, CanonicalAre, CanonicalFits, CanonicalIsUniversal, CanonicalMapsInto, CanonicalMovesInto, CanonicalSatisfies, ChasedIsUniversal, ClashAfterSteps, ClashMeansNone, CoreByMembers, CoreIsUniversal, CoreOfNeeded, CoverFoldUncovers, ExportedExactly, FactorsThroughForced, FitsByWidths, FoldsOntoUncovered, FollowsByFrozen, FollowsByPrefix, FollowsInSchemas, FollowsIsDecided, ForcedBefore, ForcedImageStays, ForcedMapByMembers, ForcedMapIsOne, FrozenFits, GroundNeeded, ImageByMembers, ImpliesEach, KeepIt, KeyedMapIsEmpty, KeysByMembers, LeastCoreIsUniversal, LeastCoversFall, MapExactly, MapsCarry, MapsCompose, MapsJoin, MoreSatisfies, MovesFollow, NeededStays, NoKeysHold, NoSolution, NoneExactly, NoneReceivesByMembers, OneAscending, OnePruned, OneRows, OntoCore, PartTells, PartsJoin, PrunedExists, PrunedImplies, ReducedIsUniversal, ReductByMembers, ReductOfReduct, RowsByMembers, RowsExist, RowsOfAll, RowsOfAllByMembers, RowsOfAllExist, RulesHaveWidths, SaidByMoves, SatisfiedByRows, SpareOne, StepsAreForced, TakeOut, UncoveredAre, UncoveredIsPart, UniversalByMembers, UniversalExactly, AtomWidthsAgree};

/// The exported variables ascend, and are exactly those that stand in the conclusion.
pub fn exported_exactly()
    ensures { ExportedExactly }
{}

/// The canonical instance of matches goes into each instance that satisfies the rules for their images.
pub fn canonical_moves_into()
    ensures { CanonicalMovesInto }
{}

/// The canonical instance maps into each instance that satisfies the rules.
pub fn canonical_maps_into()
    ensures { CanonicalMapsInto }
{}

/// The canonical instance satisfies its rules, and so does each instance that has all of it.
pub fn canonical_satisfies()
    ensures itself { CanonicalSatisfies }
    ensures more { MoreSatisfies }
{}

/// The canonical instance of closed rules is an instance in which links hold.
pub fn canonical_fits()
    ensures { CanonicalFits }
{}

/// A homomorphism into an instance in which keys hold goes through the forced map.
pub fn factors_through_forced()
    ensures { FactorsThroughForced }
{}

/// The canonical instance after its forced map is universal, if keys hold in it.
pub fn chased_is_universal()
    ensures { ChasedIsUniversal }
{}

/// A solution is universal exactly if it maps into the image of the canonical instance under its forced map.
pub fn universal_exactly()
    ensures { UniversalExactly }
{}

/// Key steps are forced, and so is what is forced after them; a clash means that no instance serves.
pub fn key_steps()
    ensures forced { StepsAreForced }
    ensures before { ForcedBefore }
    ensures clash { ClashMeansNone }
    ensures after { ClashAfterSteps }
{}

/// There is at most one forced map.
pub fn forced_map_is_one()
    ensures { ForcedMapIsOne }
{}

/// The cover fold makes exactly the uncovered part.
pub fn folds_onto_uncovered()
    ensures { FoldsOntoUncovered }
{}

/// The listed cell maps are cell maps, there is one exactly if something carries the atoms, and they follow one another.
pub fn cell_maps_carry()
    ensures carry { MapsCarry }
    ensures exactly { MapExactly }
    ensures compose { MapsCompose }
{}

/// No rule is before itself, and what is before a rule before another is before that one.
pub fn before_is_order()
    ensures { BeforeIsOrder }
{}

/// The least covers lead to rules of lower rank, and there is none exactly if nothing covers.
pub fn least_covers()
    ensures fall { LeastCoversFall }
    ensures none { NoneExactly }
{}

/// With least covers the cover fold makes exactly the uncovered part.
pub fn cover_fold_uncovers()
    ensures { CoverFoldUncovers }
{}

/// What is left of the uncovered part is universal.
pub fn reduced_is_universal()
    ensures { ReducedIsUniversal }
{}

/// A block is a closed part.
pub fn block_is_closed()
    ensures { BlockIsClosed }
{}

/// An instance each of whose facts is needed is a core.
pub fn core_of_needed()
    ensures { CoreOfNeeded }
{}

/// A fact that a part can't leave out is needed.
pub fn part_tells()
    ensures { PartTells }
{}

/// A fact that its block can leave out, the instance can leave out.
pub fn block_serves()
    ensures { BlockServes }
{}

/// A fact that is needed is needed in what is left.
pub fn needed_stays()
    ensures { NeededStays }
{}

/// A fact that can be left out can be taken out.
pub fn spare_one()
    ensures { SpareOne }
{}

/// Each homomorphism into a core that is a part has it as image.
pub fn onto_core()
    ensures { OntoCore }
{}

/// What a closed part's map into a reduct leaves out can be taken out of it.
pub fn take_out()
    ensures { TakeOut }
{}

/// What no part's map into a reduct leaves out is needed in it.
pub fn keep_it()
    ensures { KeepIt }
{}

/// A reduct of a reduct is one.
pub fn reduct_of_reduct()
    ensures { ReductOfReduct }
{}

/// A fact without nulls is needed.
pub fn ground_needed()
    ensures { GroundNeeded }
{}

/// A core that is a reduct of the chased uncovered part is universal.
pub fn core_is_universal()
    ensures { CoreIsUniversal }
{}

/// With least covers, a core that is a reduct of the chased uncovered part is universal.
pub fn least_core_is_universal()
    ensures { LeastCoreIsUniversal }
{}

/// If no keyed instance receives a part of the canonical instance, there is no solution.
pub fn no_solution()
    ensures { NoSolution }
{}

/// A rule follows from others exactly if the canonical instance of its frozen premise has its conclusion; to follow over the
/// instances of two schemas is to follow; and it is decided.
pub fn follows_by_frozen()
    ensures frozen { FollowsByFrozen }
    ensures prefix { FollowsByPrefix }
    ensures schemas { FollowsInSchemas }
    ensures decided { FollowsIsDecided }
{}

/// A list of rules has exactly one pruned list, which is a part of it and implies all of it.
pub fn one_pruned_list()
    ensures exists { PrunedExists }
    ensures one { OnePruned }
    ensures implies { PrunedImplies }
    ensures each { ImpliesEach }
{}

/// What the canonical instance and its uncovered part have.
pub fn members_are()
    ensures canonical { CanonicalAre }
    ensures uncovered { UncoveredAre }
{}

/// Ascending facts with the same members are one list.
pub fn one_ascending_list()
    ensures { OneAscending }
{}

/// Maps of closed parts of an instance join to one.
pub fn parts_join()
    ensures { PartsJoin }
{}

/// Atoms fit a schema exactly if they fit its widths; atoms that fit widths agree in them; and rules whose conclusions agree
/// have a width for each table.
pub fn widths_of_atoms()
    ensures fit { FitsByWidths }
    ensures agree { AtomWidthsAgree }
    ensures have { RulesHaveWidths }
{}

/// What has the members of the canonical instance is universal, if keys hold in it.
pub fn canonical_is_universal()
    ensures { CanonicalIsUniversal }
{}

/// A rule has exactly one list of rows on an instance, by the members of the instance alone, and they tell whether two
/// instances satisfy it.
pub fn one_list_of_rows()
    ensures exist { RowsExist }
    ensures one { OneRows }
    ensures members { RowsByMembers }
    ensures satisfied { SatisfiedByRows }
{}

/// Rules have exactly one list of rows each on an instance, by the members of the instance alone.
pub fn rows_of_all_rules()
    ensures exist { RowsOfAllExist }
    ensures one { RowsOfAll }
    ensures members { RowsOfAllByMembers }
{}

/// What counts of an instance are its members.
pub fn members_count()
    ensures forced { ForcedMapByMembers }
    ensures received { NoneReceivesByMembers }
    ensures universal { UniversalByMembers }
    ensures keys { KeysByMembers }
    ensures image { ImageByMembers }
    ensures reduct { ReductByMembers }
    ensures core { CoreByMembers }
{}

/// If keys hold in an instance, its forced map is empty; keys hold if there are none.
pub fn keyed_instances()
    ensures empty { KeyedMapIsEmpty }
    ensures none { NoKeysHold }
{}

/// Homomorphisms follow one another, and so do images.
pub fn maps_join()
    ensures maps { MapsJoin }
    ensures images { MovesFollow }
{}

/// No map of the exchange brings in a null from elsewhere.
pub fn nulls_stay()
    ensures forced { ForcedImageStays }
    ensures part { UncoveredIsPart }
{}

/// What a rule says is in an instance for some values of its existential variables exactly if it moves there; the frozen
/// premise of a rule that fits is a source instance.
pub fn atoms_move()
    ensures said { SaidByMoves }
    ensures frozen { FrozenFits }
{}
