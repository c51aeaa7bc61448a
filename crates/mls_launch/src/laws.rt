//! What is safe of a launcher's actions, over every list of events.

ghost use Rattle.std.specs.Prelude.{◌≡◌, ℕ, ◌≤◌, ◌++◌, [], ◌∷◌, List, false};
ghost use Rattle.std.specs.List.{AllByRecursion};
ghost use Rattle.mls_model.specs.Studies.{Sizes, AreSizes};
ghost use Rattle.mls_model.specs.declared.launcher.Event.{Event};
ghost use Rattle.mls_model.specs.Pasts.{came};
ghost use Rattle.mls_model.specs.Launcher.{running, actions_at, is_tick, past_of};
ghost use Rattle.mls_launch.specs.Safety.{own_actions, IsCourse, IsSettled, IsTimely};

/// After every list of events at most `slots` groups run. A group's actions are a start with life 1, restarts with
/// lives 2, 3 and so on up to at most `lives`, and then at most one giving up; after it is finished or given up there
/// is none. Only a tick has actions. A group is restarted or given up, and a rank restarted, only where more than
/// `silence` passed since its last time.
pub fn launches_safely()
    ensures slots { (s : Sizes) → AreSizes s → (events : List Event) → running s (past_of s events) ≤ s.slots }
    ensures course { (s : Sizes) → AreSizes s → (events : List Event) (g : ℕ) →
        IsCourse s.lives g (own_actions s events g) }
    ensures settled { (s : Sizes) → AreSizes s → (before after : List Event) (g : ℕ) →
        IsSettled g (past_of s before) →
        own_actions s (before ++ after) g ≡ own_actions s before g }
    ensures ticks { (s : Sizes) (events : List Event) (e : Event) → is_tick e ≡ false →
        actions_at s (past_of s events) e ≡ [] }
    ensures timely { (s : Sizes) (events : List Event) (e : Event) →
        AllByRecursion (IsTimely s (came e ∷ past_of s events)) (actions_at s (past_of s events) e) }
{}
