// Two small cells: what is known of them, proved about the definitions that everything else rests on.
#![tactic(auto)]

ghost use Rattle.cells.specs.Facts.{SmallCells};

// Cell one, an action whose end adds the goal: its clauses for one step are the printed ones, and only 3, 4, 6 true satisfies them.
// Cell two, an action that must lie within another: one valid plan of two steps, with these values, and none of one step.
pub fn small_cells_stand()
    ensures { SmallCells }
{}
