//! Texts as schedules of the lane of two groups, and the first line that is refused.

ghost use Rattle.std.specs.Prelude.{◌≡◌, ℕ, List, [], ◌∷◌, Ok, codes};
ghost use Rattle.mls_model.specs.declared.lanes.SchedWhy.TheVariants.{Form, Rank, Lane, Count};
ghost use Rattle.mls_examples.specs.Schedules.{read_by, refused_line};

/// Schedules that are read. The empty text is one, and so is one that leaves events out.
pub fn read_schedules()
    ensures empty { read_by 1 (codes "") ≡ Ok ([] ∷ []) }
    ensures some { read_by 1 (codes "0 0\n") ≡ Ok ((0 ∷ []) ∷ []) }
    ensures whole { read_by 2 (codes "0 0\n0 0\n") ≡ Ok ((0 ∷ 0 ∷ []) ∷ [] ∷ []) }
{}

/// Schedules that are refused: the lane stands once too often, no line of the form, no such rank, no such lane of it.
pub fn refused_schedules()
    ensures count { read_by 1 (codes "0 0\n0 0\n0 0\n") ≡ refused_line 3 Count }
    ensures zero { read_by 1 (codes "0 00\n") ≡ refused_line 1 Form }
    ensures rank { read_by 1 (codes "1 0\n") ≡ refused_line 1 Rank }
    ensures lane { read_by 1 (codes "0 1\n") ≡ refused_line 1 Lane }
    ensures other_rank { read_by 2 (codes "1 0\n") ≡ refused_line 1 Lane }
    ensures no_newline { read_by 2 (codes "0 0\n0 0") ≡ refused_line 2 Form }
    ensures empty_line { read_by 2 (codes "0 0\n\n") ≡ refused_line 2 Form }
    ensures blanks { read_by 2 (codes "0  0\n") ≡ refused_line 1 Form }
    ensures too_large { read_by 2 (codes "0 4294967296\n") ≡ refused_line 1 Form }
{}
