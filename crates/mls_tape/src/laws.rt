//! What holds of lanes and schedules.

ghost use Rattle.std.specs.Prelude.{◌≡◌, ℕ, Bool, ◌^◌, ◌<◌, ◌≤◌, true, List, length, Some, Ok, Err};
ghost use Rattle.std.specs.List.{AllByRecursion};
ghost use Rattle.mls_model.specs.Numbers.{element};
ghost use Rattle.mls_model.specs.Frames.{Frame};
ghost use Rattle.mls_model.specs.Lanes.{Lane, AreLaneEvents, lane_frames, lane_rest, tape_of, SpellsTape};
ghost use Rattle.mls_model.specs.Schedules.{is_legal_order, is_legal, is_complete, plain, schedule_text};
ghost use Rattle.mls_tape.specs.ScheduleLines.{IsScheduleOf, IsRefusedAt};
ghost use Rattle.mls_tape.specs.ScheduleReading.{LineRefusal, schedule_of};
ghost use Rattle.mls_frame.specs.Views.{AreBytes};

/// A lane's bytes have one longest list of frames.
pub fn lane_events_are_unique()
    ensures { (bytes : List ℕ) (fs gs : List Frame) (rest others : List ℕ) → AreLaneEvents bytes fs rest →
        AreLaneEvents bytes gs others → (fs ≡ gs) × (rest ≡ others) }
{}

/// What the front of the bytes is, again and again, gives that list.
pub fn lane_events_are_found()
    ensures { (bytes : List ℕ) → AreBytes bytes → AreLaneEvents bytes (lane_frames bytes) (lane_rest bytes) }
{}

/// Bytes are read as the lanes of a tape exactly where they spell a tape with these lanes.
pub fn tapes_are_spelled()
    ensures spelled { (ranks : ℕ) (signed : Bool) (bytes : List ℕ) (lanes : List Lane) → AreBytes bytes →
        tape_of ranks signed bytes ≡ Ok lanes → SpellsTape ranks signed bytes lanes }
    ensures read { (ranks : ℕ) (signed : Bool) (bytes : List ℕ) (lanes : List Lane) →
        SpellsTape ranks signed bytes lanes → tape_of ranks signed bytes ≡ Ok lanes }
{}

/// The plain schedule is legal and complete.
pub fn plain_schedule_is_complete()
    ensures complete { (ranks : ℕ) (lanes : List Lane) →
        AllByRecursion (λ (lane : Lane). lane.rank < ranks) lanes → is_complete ranks lanes (plain ranks lanes) ≡ true }
    ensures legal { (ranks : ℕ) (lanes : List Lane) → is_legal ranks lanes (plain ranks lanes) ≡ true }
{}

/// A legal schedule has a legal list for each rank.
pub fn legal_schedules_have_legal_orders()
    ensures orders { (ranks : ℕ) (lanes : List Lane) (orders : List (List ℕ)) (rank : ℕ) (order : List ℕ) →
        is_legal ranks lanes orders ≡ true →
        element orders rank ≡ Some order → is_legal_order lanes rank order ≡ true }
    ensures count { (ranks : ℕ) (lanes : List Lane) (orders : List (List ℕ)) →
        is_legal ranks lanes orders ≡ true → length orders ≡ ranks }
{}

/// The text of a legal schedule is read as that schedule.
pub fn schedule_text_is_read()
    ensures { (ranks : ℕ) (lanes : List Lane) (orders : List (List ℕ)) → ranks ≤ 2 ^ 32 → length lanes ≤ 2 ^ 32 →
        is_legal ranks lanes orders ≡ true → schedule_of ranks lanes (schedule_text orders) ≡ Ok orders }
{}

/// Bytes are lines that all pass, and their lists are a legal schedule; or the line that is refused is the first that
/// fails, for its reason.
pub fn schedules_are_legal_or_refused()
    ensures read { (ranks : ℕ) (lanes : List Lane) (bytes : List ℕ) (orders : List (List ℕ)) →
        schedule_of ranks lanes bytes ≡ Ok orders → IsScheduleOf ranks lanes bytes orders }
    ensures legal { (ranks : ℕ) (lanes : List Lane) (bytes : List ℕ) (orders : List (List ℕ)) →
        schedule_of ranks lanes bytes ≡ Ok orders → is_legal ranks lanes orders ≡ true }
    ensures refused { (ranks : ℕ) (lanes : List Lane) (bytes : List ℕ) (refusal : LineRefusal) →
        schedule_of ranks lanes bytes ≡ Err refusal → IsRefusedAt ranks lanes bytes refusal.line refusal.why }
{}
