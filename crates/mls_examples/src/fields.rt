//! Two fields over one mesh.

ghost use Rattle.std.specs.Prelude.{◌≡◌, List, [], ◌∷◌};
ghost use Rattle.mls_model.specs.declared.outcomes.Outcome.TheVariants.{Accepted, Foreign};
ghost use Rattle.mls_model.specs.declared.outcomes.Reason.TheVariants as reason;
ghost use Rattle.mls_model.specs.Outcomes.{outcomes};
ghost use Rattle.mls_model.specs.ResultText.{result_text};
ghost use Rattle.mls_model.specs.Schedules.{plain};
ghost use Rattle.mls_examples.specs.Small.{small_study};
ghost use Rattle.mls_examples.specs.Fields.{two_fields, two_fields_lanes, two_fields_text, one_field_text};
ghost use Rattle.mls_examples.specs.Ranks.{survivors};

/// Each field has its own step line and its own groups.
pub fn two_named_fields()
    ensures outcomes { outcomes two_fields.sizes 0 (survivors two_fields_lanes (plain 1 two_fields_lanes) 0) ≡ Accepted ∷ Accepted ∷ Accepted ∷ [] }
    ensures text { result_text two_fields two_fields_lanes (plain 1 two_fields_lanes) ≡ two_fields_text }
{}

/// Where the study has one field, a piece of the second is foreign by its step number.
pub fn one_field_alone()
    ensures outcomes { outcomes small_study.sizes 0 (survivors two_fields_lanes (plain 1 two_fields_lanes) 0) ≡ Accepted ∷ Accepted ∷ Foreign reason.Step ∷ [] }
    ensures text { result_text small_study two_fields_lanes (plain 1 two_fields_lanes) ≡ one_field_text }
{}
