// The laws of blocks. The definitions alone carry them: no body computes anything.
ghost use Rattle.dx_blocks.specs.Laws.{BlocksAreApart, BlocksAreClosed, EachInBlock, OneBlockList};

/// An instance has one list of blocks.
pub fn one_list_of_blocks()
    ensures { OneBlockList }
{}

/// Blocks are closed parts without common facts, and each fact that holds a null stands in one.
pub fn blocks_are_parts()
    ensures closed { BlocksAreClosed }
    ensures each { EachInBlock }
    ensures apart { BlocksAreApart }
{}
