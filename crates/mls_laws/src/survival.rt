//! Which events outlive the crashes of a rank.

ghost use Rattle.std.specs.Prelude.{◌≡◌, ℕ, ◌≤◌, ◌&&◌, ◌||◌, List, [], ◌∷◌, ◌++◌, length, Some, None, true, false, cond};
ghost use Rattle.std.specs.List.{list_any};
ghost use Rattle.mls_model.specs.Studies.{Sizes};
ghost use Rattle.mls_model.specs.Histories.{LaneEvent};
ghost use Rattle.mls_model.specs.Survival.{is_save, is_crash, surviving, last_save, before_last_save, crash_after_save};
ghost use Rattle.mls_model.specs.Fitting.{fitting, fitting_piece};
ghost use Rattle.mls_model.specs.Outcomes.{outcome, outcomes, counts, total_count};
ghost use Rattle.std.specs.Option.{option_to_list};
ghost use Rattle.mls_model.specs.Outcomes.{counted};

/// What survives of a history without a crash, of one with an event more, and of one that ends after its last crash.
pub fn what_survives()
    ensures no_crash { (history : List LaneEvent) → list_any is_crash history ≡ false → surviving history ≡ history }
    ensures one_more { (history : List LaneEvent) (e : LaneEvent) → is_crash e ≡ false → surviving (history ++ e ∷ []) ≡ surviving history ++ e ∷ [] }
    ensures after_last_crash { (before : List LaneEvent) (e : LaneEvent) (after : List LaneEvent) → list_any is_crash after ≡ false → (kept : List LaneEvent) × (surviving (before ++ e ∷ after) ≡ kept ++ e ∷ after) }
{}

/// A crash brings back what came before the last save. The save itself does not outlive the crash.
pub fn crash_goes_back()
    ensures crash { (history : List LaneEvent) (e : LaneEvent) → is_crash e ≡ true → surviving (history ++ e ∷ []) ≡ surviving (before_last_save history) ++ e ∷ [] }
    ensures save { (history : List LaneEvent) (e : LaneEvent) → before_last_save (history ++ e ∷ []) ≡ cond (is_save e) history (before_last_save history) }
{}

/// One more surviving event has its outcome, and changes nothing of those before it.
pub fn one_more_event()
    ensures pieces { (s : Sizes) (rank : ℕ) (events : List LaneEvent) (e : LaneEvent) → fitting s rank (events ++ e ∷ []) ≡ fitting s rank events ++ option_to_list (fitting_piece s rank e) }
    ensures outcomes { (s : Sizes) (rank : ℕ) (events : List LaneEvent) (e : LaneEvent) → outcomes s rank (events ++ e ∷ []) ≡ outcomes s rank events ++ outcome s rank events e ∷ [] }
    ensures counts { (s : Sizes) (rank : ℕ) (events : List LaneEvent) (e : LaneEvent) → counts s rank (events ++ e ∷ []) ≡ counted (counts s rank events) (outcome s rank events e) }
{}

/// What stood before the last save, and whether a crash stands behind a save: of a history without a save, and of
/// one with an event more.
pub fn what_was_saved()
    ensures none { (history : List LaneEvent) → list_any is_save history ≡ false → last_save history ≡ None }
    ensures nothing { (history : List LaneEvent) → list_any is_save history ≡ false → before_last_save history ≡ [] }
    ensures last { (history : List LaneEvent) (e : LaneEvent) → last_save (history ++ e ∷ []) ≡ cond (is_save e) (Some history) (last_save history) }
    ensures crash { (history : List LaneEvent) (e : LaneEvent) → crash_after_save (history ++ e ∷ []) ≡ (crash_after_save history || (is_crash e && list_any is_save history)) }
{}

/// The counts of what survives of a history add up to at most its length, and a save at its end counts nothing.
pub fn few_are_counted()
    ensures few { (s : Sizes) (rank : ℕ) (history : List LaneEvent) → total_count (counts s rank (surviving history)) ≤ length history }
    ensures save { (s : Sizes) (rank : ℕ) (history : List LaneEvent) (e : LaneEvent) → is_save e ≡ true → counts s rank (surviving (history ++ e ∷ [])) ≡ counts s rank (surviving history) }
{}
