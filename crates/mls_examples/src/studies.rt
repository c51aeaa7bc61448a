//! The limits of a study's numbers.

ghost use Rattle.std.specs.Prelude.{◌≡◌};
ghost use Rattle.mls_model.specs.Studies.{AreSizes, IsStudy};
ghost use Rattle.mls_examples.specs.Small.{one_cell, small_study};
ghost use Rattle.mls_examples.specs.Statistics.{all_shown, power_alone, three_groups, extrema_alone};
ghost use Rattle.mls_examples.specs.Assembly.{ten_cells, two_clients, three_ranks};
ghost use Rattle.mls_examples.specs.Fields.{two_fields};
ghost use Rattle.mls_examples.specs.Samples.{signed_study};
ghost use Rattle.mls_examples.specs.Studies.{cells_and_steps};

/// Cells and steps together are at most 1,048,576 for one field.
pub fn study_limits()
    ensures most { AreSizes (cells_and_steps 524288 2) }
    ensures product { AreSizes (cells_and_steps 524289 2) → ⊥ }
    ensures cells { AreSizes (cells_and_steps 1048577 1) → ⊥ }
{}

/// The studies of the examples are within the limits.
pub fn example_studies()
    ensures small { IsStudy small_study }
    ensures all_shown { IsStudy all_shown }
    ensures power_alone { IsStudy power_alone }
    ensures three_groups { IsStudy three_groups }
    ensures extrema_alone { IsStudy extrema_alone }
    ensures ten_cells { AreSizes ten_cells }
    ensures two_clients { IsStudy two_clients }
    ensures three_ranks { IsStudy three_ranks }
    ensures two_fields { IsStudy two_fields }
    ensures signed_study { IsStudy signed_study }
{}
