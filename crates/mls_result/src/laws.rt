//! Laws of what the cores of a study keep.

ghost use Rattle.mls_result.specs.HistorySums.{KeepTheirHistories};

use mls_field::field::Field;
use mls_field::fold::RowFold;

/// Cores that stand for the histories of their ranks count the events of these, and the sums that they keep of a plane
/// and a cell add up the values of its rows.
pub fn cores_keep_histories()
    ensures { KeepTheirHistories ⟦<Field as RowFold>⟧ }
{}
