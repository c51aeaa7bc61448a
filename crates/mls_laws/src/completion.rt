//! Where a key is completed.

ghost use Rattle.std.specs.Prelude.{◌≡◌, ◌≢◌, ℕ, List, [], ◌∷◌, ◌++◌, true, false, ◌&&◌, ◌==◌};
ghost use Rattle.std.specs.List.{list_any, AllPairs};
ghost use Rattle.mls_model.specs.Places.{any_place};
ghost use Rattle.mls_model.specs.Studies.{Sizes};
ghost use Rattle.mls_model.specs.Frames.{Piece};
ghost use Rattle.mls_model.specs.Completion.{Key, key_of, is_of_key, is_completed, completes};
ghost use Rattle.mls_model.specs.AcceptedRows.{accepted};

/// At most one place completes a key: none after one that does, and no two places of one list.
pub fn completed_once()
    ensures none_after { (s : Sizes) (rank : ℕ) (before : List Piece) (p : Piece) (between : List Piece) (q : Piece) → key_of p ≡ key_of q → completes s rank before p ≡ true → completes s rank (before ++ p ∷ between) q ≡ false }
    ensures one_place { (s : Sizes) (rank : ℕ) (a : List Piece) (p : Piece) (a_rest b : List Piece) (q : Piece) (b_rest : List Piece) → a ++ p ∷ a_rest ≡ b ++ q ∷ b_rest → key_of p ≡ key_of q → completes s rank a p ≡ true → completes s rank b q ≡ true → a ≡ b }
{}

/// A key is completed exactly where some place completes it.
pub fn completed_somewhere()
    ensures { (s : Sizes) (rank : ℕ) (key : Key) (pieces : List Piece) → is_completed s rank key pieces ≡ any_place (λ before p. is_of_key key p && completes s rank before p) [] pieces }
{}

/// The accepted groups of a plane are those whose keys are completed, and none of them stands twice.
pub fn accepted_once()
    ensures completed { (s : Sizes) (rank : ℕ) (key : Key) (pieces : List Piece) → list_any (λ group. group == key.group) (accepted s rank key.plane pieces) ≡ is_completed s rank key pieces }
    ensures apart { (s : Sizes) (rank plane : ℕ) (pieces : List Piece) → AllPairs (λ (g h : ℕ). g ≢ h) (accepted s rank plane pieces) }
{}
