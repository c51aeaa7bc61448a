//! Studies with one client, each of whose fitting pieces covers the block of its rank.

ghost use Rattle.std.specs.Prelude.{◌≡◌, ◌<◌, ℕ, List, [], ◌∷◌, ◌++◌, Some, true, false, ◌||◌, cond, map};
ghost use Rattle.std.specs.List.{list_any};
ghost use Rattle.mls_model.specs.Studies.{Sizes, AreSizes};
ghost use Rattle.mls_model.specs.Blocks.{block, width};
ghost use Rattle.mls_model.specs.Samples.{shifted};
ghost use Rattle.mls_model.specs.Frames.{Piece};
ghost use Rattle.mls_model.specs.AcceptedRows.{samples_at};
ghost use Rattle.mls_model.specs.Standing.{with_block, rank_table};
ghost use Rattle.mls_model.specs.Histories.{LaneEvent};
ghost use Rattle.mls_model.specs.Fitting.{fitting, fitting_piece};
ghost use Rattle.mls_model.specs.Completion.{Key, key_of, is_of_key, is_completed};
ghost use Rattle.mls_model.specs.Outcomes.{outcome};
ghost use Rattle.mls_model.specs.declared.outcomes.Outcome.TheVariants.{Accepted, Replay};

/// With one client a fitting piece is a replay where a surviving piece of its key came before, and else it is accepted.
pub fn accepted_or_replay()
    ensures outcome { (s : Sizes) (rank : ℕ) → s.clients ≡ 1 → (before : List LaneEvent) (e : LaneEvent) (p : Piece) → fitting_piece s rank e ≡ Some p → outcome s rank before e ≡ cond (list_any (is_of_key (key_of p)) (fitting s rank before)) Replay Accepted }
    ensures completed { (s : Sizes) (rank : ℕ) → s.clients ≡ 1 → (key : Key) (events : List LaneEvent) → is_completed s rank key (fitting s rank events) ≡ list_any (is_of_key key) (fitting s rank events) }
{}

/// With one client a piece whose key is new completes that key alone and gives each cell its own samples, and a replay gives none.
pub fn rows_of_piece()
    ensures completed { (s : Sizes) (rank : ℕ) → s.clients ≡ 1 → (key : Key) (before : List LaneEvent) (e : LaneEvent) (p : Piece) → fitting_piece s rank e ≡ Some p → is_completed s rank key (fitting s rank before ++ p ∷ []) ≡ (is_completed s rank key (fitting s rank before) || is_of_key key p) }
    ensures accepted { (s : Sizes) (rank : ℕ) → AreSizes s → s.clients ≡ 1 → rank < s.ranks → (before : List LaneEvent) (e : LaneEvent) (p : Piece) → fitting_piece s rank e ≡ Some p → list_any (is_of_key (key_of p)) (fitting s rank before) ≡ false → rank_table s rank (fitting s rank before ++ p ∷ []) ≡ with_block (rank_table s rank (fitting s rank before)) p.plane (width (block s rank)) (λ place. map (shifted s.signed) (samples_at p place)) }
    ensures replay { (s : Sizes) (rank : ℕ) → s.clients ≡ 1 → (before : List LaneEvent) (e : LaneEvent) (p : Piece) → fitting_piece s rank e ≡ Some p → list_any (is_of_key (key_of p)) (fitting s rank before) ≡ true → rank_table s rank (fitting s rank before ++ p ∷ []) ≡ rank_table s rank (fitting s rank before) }
{}
