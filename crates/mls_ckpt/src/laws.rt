//! Laws of numbers, parts and states, for every list of bytes.

ghost use Rattle.mls_ckpt.specs.CellParts.{part_at};
ghost use Rattle.mls_ckpt.specs.Laws.{NumbersReadAgain, NumbersAreSpelled, ReadsParts, SumsReadAgain, SumsAreSpelled, SumsAreTheirs};
ghost use Rattle.mls_ckpt.specs.Laws.{StatesReadAgain, StatesAreSpelled, SavedStatesReadAgain, SavedStatesAreSpelled};
ghost use Rattle.mls_ckpt.specs.Laws.{MarksAreValid, MarksAreTests, MarksAreTheirs};

/// A number is read from its bytes, whatever follows. So what was put is taken.
pub fn numbers_read_again()
    ensures { NumbersReadAgain }
{}

/// What is read as a number is spelled by the bytes before the new place.
pub fn numbers_are_spelled()
    ensures { NumbersAreSpelled }
{}

/// The marks of a test are valid bytes whose bits are what the test says, and no other valid bytes have these bits.
pub fn marks_are_tests()
    ensures valid { MarksAreValid }
    ensures bits { MarksAreTests }
    ensures only { MarksAreTheirs }
{}

/// A valid state is read from its spelling in each version that is read for the study, whatever reads its sums.
pub fn states_read_again()
    ensures { StatesReadAgain }
{}

/// What is read as a state is a spelling of it in such a version, and the state is valid, where what is read as
/// its sums is read again.
pub fn states_are_spelled()
    ensures { StatesAreSpelled }
{}

/// The part that spells valid sums of all cells is read, whatever follows.
pub fn sums_read_again()
    ensures { SumsReadAgain }
{}

/// What is read as the sums of all cells is spelled by the bytes before the new place, the sums are valid, and
/// they are read again.
pub fn sums_are_spelled()
    ensures spelled { SumsAreSpelled }
    ensures parts { ReadsParts part_at }
{}

/// The bytes of valid sums of all cells are those of no other valid sums.
pub fn sums_are_theirs()
    ensures { SumsAreTheirs }
{}

/// A state with valid sums is read from its spelling in each version that is read for the study.
pub fn saved_states_read_again()
    ensures { SavedStatesReadAgain }
{}

/// What is read as a state with sums is a spelling of it in such a version, and its sums are valid.
pub fn saved_states_are_spelled()
    ensures { SavedStatesAreSpelled }
{}
