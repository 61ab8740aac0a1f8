//! Making a table's template.

ghost use Rattle.std.specs.Prelude.{◌≡◌, ℕ};
ghost use Rattle.encoding.specs.Clauses.{formula as clause_list};
ghost use Rattle.encoding.specs.Labels.{labelled};
ghost use Rattle.formula.specs.Templates.{Templated, tagged_unrolled, unrolled};
ghost use Rattle.table.specs.Model.{meant};

use super::Template;
use crate::layout::Layout;
use crate::listing::Listing;
use table::Table;

impl Template {
    pub fn of(table: &Table) -> Template
        ensures families { Templated (meant table.now) result }
        ensures unrolls { (n : ℕ) → unrolled result n ≡ clause_list (meant table.now) n }
        ensures labels { (n : ℕ) → tagged_unrolled result n ≡ labelled (meant table.now) n }
    {
        let layout = Layout::of(table);
        // five listings of four sizes, each with a put of its own
        let mut start = Listing::none();
        layout.put_start(&mut start);
        let mut agenda = Listing::none();
        layout.put_agenda(&mut agenda);
        let mut kept = Listing::none();
        layout.put_kept(&mut kept);
        let mut truth = Listing::none();
        layout.put_truth(&mut truth);
        let mut goal = Listing::none();
        layout.put_goal(&mut goal);
        let step_size = layout.step_size();
        Template {
            start,
            agenda,
            kept,
            truth,
            goal,
            step_size,
        }
    }
}
