//! What holds of frames and their spellings, for every list of bytes.

ghost use Rattle.std.specs.Prelude.{◌≡◌, ℕ, ◌+◌, ◌≤◌, List, ◌++◌, length, take, drop};
ghost use Rattle.mls_model.specs.declared.lanes.FrameFault.{FrameFault};
ghost use Rattle.mls_model.specs.Frames.{Frame, IsFrame, spelling, Spells, Sight, whole, more, bad, sight};
ghost use Rattle.mls_model.specs.Lanes.{AreLaneEvents};
ghost use Rattle.mls_frame.specs.Views.{AreBytes};
ghost use Rattle.mls_frame.specs.Feeding.{Fed, Call, bytes_fed, frames_taken, after_calls, IsNoFrame, LosesNothing};

/// A whole frame is seen exactly where its spelling is the first bytes.
pub fn whole_is_spelled()
    ensures spelled { (bytes : List ℕ) (frame : Frame) (used : ℕ) → AreBytes bytes →
        sight bytes ≡ whole frame used →
        IsFrame frame × (take used bytes ≡ spelling frame) × (used ≤ length bytes) }
    ensures seen { (frame : Frame) (tail : List ℕ) → IsFrame frame →
        sight (spelling frame ++ tail) ≡ whole frame (length (spelling frame)) }
{}

/// A frame has one spelling, and no frame's spelling is a proper front of another's: where two spellings
/// begin one list, the frames are one, and what follows is too.
pub fn no_spelling_begins_another()
    ensures { (f g : Frame) (x y : List ℕ) → IsFrame f → IsFrame g → spelling f ++ x ≡ spelling g ++ y →
        (f ≡ g) × (x ≡ y) }
{}

/// Where bytes are refused, no frame's spelling begins with them or begins them.
pub fn bad_is_no_front()
    ensures begins { (bytes : List ℕ) (fault : FrameFault) (frame : Frame) (tail : List ℕ) →
        sight bytes ≡ bad fault → IsFrame frame → bytes ≡ spelling frame ++ tail → ⊥ }
    ensures front { (bytes : List ℕ) (fault : FrameFault) (frame : Frame) (rest : List ℕ) →
        sight bytes ≡ bad fault → IsFrame frame → spelling frame ≡ bytes ++ rest → ⊥ }
{}

/// Where there is too little to tell, no frame's spelling begins the bytes.
pub fn more_is_no_frame()
    ensures { (bytes : List ℕ) (frame : Frame) (tail : List ℕ) → sight bytes ≡ more →
        IsFrame frame → bytes ≡ spelling frame ++ tail → ⊥ }
{}

/// A longer input changes neither a whole frame nor a refusal.
pub fn longer_changes_nothing()
    ensures whole { (bytes extra : List ℕ) (frame : Frame) (used : ℕ) → AreBytes bytes →
        sight bytes ≡ whole frame used → sight (bytes ++ extra) ≡ whole frame used }
    ensures bad { (bytes extra : List ℕ) (fault : FrameFault) → sight bytes ≡ bad fault →
        sight (bytes ++ extra) ≡ bad fault }
{}

/// A frame's spelling has at least five bytes.
pub fn spellings_have_a_head()
    ensures { (frame : Frame) → 5 ≤ length (spelling frame) }
{}

/// Over any calls of a feeder the spellings of the frames taken, in order, followed by what is left, are the bytes that
/// were there and were fed. So where no frame is left, the frames are those of these bytes, however they were cut.
pub fn feeders_lose_nothing()
    ensures kept { (before : Fed) (calls : List Call) → AreBytes (before.rest ++ bytes_fed calls) →
        LosesNothing before calls }
    ensures longest { (before : Fed) (calls : List Call) → AreBytes (before.rest ++ bytes_fed calls) →
        IsNoFrame (sight (after_calls before calls).rest) →
        AreLaneEvents (before.rest ++ bytes_fed calls) (frames_taken before calls) (after_calls before calls).rest }
{}
