//! Laws of the summary and of its schedule.

ghost use Rattle.std.specs.Prelude.{◌≡◌, ℕ, List, true};
ghost use Rattle.mls_model.specs.Lanes.{Lane};
ghost use Rattle.mls_model.specs.Schedules.{is_legal, is_complete};
ghost use Rattle.mls_model.specs.Studies.{Study, IsStudy};
ghost use Rattle.mls_model.specs.ResultText.{histories_of};
ghost use Rattle.mls_design.specs.TrialText.{AcceptsAll, groups_line, groups_text};

use mls_design::laws::trials_accept_all_groups;

/// Where each rank accepts all groups in each plane, the line `groups` of the summary has the study's number of groups
/// twice.
pub fn complete_trials_accept_all()
    ensures { (study : Study) (lanes : List Lane) (orders : List (List ℕ)) → IsStudy study →
        AcceptsAll study.sizes lanes orders →
        groups_line study.sizes (histories_of lanes orders) ≡ groups_text study.sizes.groups study.sizes.groups }
{
    trials_accept_all_groups();
}

/// A complete schedule is legal, so that a trial's schedule may be folded.
pub fn complete_schedules_are_legal()
    ensures { (ranks : ℕ) (lanes : List Lane) (orders : List (List ℕ)) → is_complete ranks lanes orders ≡ true →
        is_legal ranks lanes orders ≡ true }
{}
