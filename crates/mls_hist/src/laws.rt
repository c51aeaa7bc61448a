//! Laws of quartiles and of histograms, for every list of samples.

ghost use Rattle.mls_hist.specs.Quartiles.{NumbersAreSorted};
ghost use Rattle.mls_hist.specs.Tables.{TablesAreCounted};

/// The sample with a number, from 1, is the one at its place of the sorted list.
pub fn numbers_are_sorted()
    ensures { NumbersAreSorted }
{}

/// Where a histogram stands for lists of rows, its counts are those of the samples A and B of the rows, and give their
/// brackets.
pub fn tables_are_counted()
    ensures { TablesAreCounted }
{}
