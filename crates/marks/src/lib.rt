// The marks of what is wanted and of what is shown, lent as one bundle, and the question whether a wanted job has an event of a fact.
#![tactic(auto)]

ghost use Rattle.std.specs.Prelude.{◌<◌, ◌≡◌, false, map, length, get_or};
ghost use Rattle.rules.specs.Class.{ByWanted};
ghost use Rattle.laws.specs.Columns.{marks_col};
ghost use Rattle.laws.specs.Test.{Says};
ghost use Rattle.sheet.specs.WellFormed.{said_by};
ghost use Rattle.marks.specs.View.{mark_columns, type_of_column, AsksWanted};

use index::Columns;
use sheet::WellFormed;

// The columns of marks, lent as one.
pub type Marks<'a> = [&'a [bool]; 4];

#[derive(Clone, Copy)]
pub struct Mark;

impl Mark {
    // Wanted facts, wanted jobs.
    pub const FACTS: usize = 0;

    pub const JOBS: usize = 1;
    // Facts shown cleared last, shown cleared first.
    pub const LAST: usize = 2;

    pub const FIRST: usize = 3;
}

// The mark at place i of column k.
// Equals: get_or (marks_col marks k) i false
pub fn on<'a>(marks: Marks<'a>, k: usize, i: usize) -> bool
    requires { (k < mark_columns) × (i < length (marks_col (map (λ x. x.now) marks) k)) }
    ensures { result ≡ get_or (marks_col (map (λ x. x.now) marks.entry) k) i false }
{
    marks[k][i]
}

// Has a wanted job an event of fact f? Those events start where column k of the index says.
// Equals: whether ByWanted holds
pub fn by_wanted<'a, 'm>(
    sheet: &WellFormed,
    columns: Columns<'a>,
    marks: Marks<'m>,
    k: usize,
    f: usize,
) -> bool
    requires { AsksWanted sheet.now (map (λ x. x.now) columns) (map (λ x. x.now) marks) k f }
    ensures { Says (ByWanted (said_by sheet.now) (type_of_column k) f) result }
{
    let start = index::at(columns, k, f);
    let end = index::at(columns, k, f + 1);
    for r in start..end {
        let j = index::job_at(sheet.view, sheet.bytes, columns, r);
        if on(marks, Mark::JOBS, j) {
            return true;
        }
    }
    false
}
