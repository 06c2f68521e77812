// The laws of closings. The definitions alone carry them: the bodies compute nothing.
ghost use Rattle.dx_closing.specs.Laws.{ClosingEnds, ClosingKeeps, ClosingServes, OneClosing, ServedIsClosing};

/// Where links have no cycle, each conclusion has a closing.
pub fn closing_ends()
    ensures { ClosingEnds }
{}

/// A conclusion has one closing alone.
pub fn one_closing()
    ensures { OneClosing }
{}

/// A closing has the conclusion in front: none of its atoms is lost, changed or moved.
pub fn closing_keeps()
    ensures { ClosingKeeps }
{}

/// In a closing each link of each atom is served.
pub fn closing_serves()
    ensures { ClosingServes }
{}

/// A conclusion in which each link of each atom is served is its own closing.
pub fn served_is_closing()
    ensures { ServedIsClosing }
{}
