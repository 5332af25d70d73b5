ghost use Rattle.index_laws.specs.RowSums.{SumsFollow};
ghost use Rattle.index_laws.specs.StateCounts.{CountsFollow};
ghost use Rattle.index_laws.specs.Touched.{RowsGrowByOne};

/// An entry adds at most one task and at most one bot.
pub fn rows_grow_by_one()
    ensures { RowsGrowByOne }
{}

/// An entry changes the count of a state by what the touched task adds to it before and after.
pub fn counts_follow()
    ensures { CountsFollow }
{}

/// An entry changes a sum over the tasks by what the touched task adds to it before and after.
pub fn sums_follow()
    ensures { SumsFollow }
{}
