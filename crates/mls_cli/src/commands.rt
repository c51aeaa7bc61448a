//! The top call.

ghost use Rattle.std.specs.Prelude.{◌≡◌, ◌↔◌, ℕ, map, string_bytes, vec_len, None, Some, IsTrue};
ghost use Rattle.mls_base.specs.Told.{Names, Rose};
ghost use Rattle.mls_text.specs.Writing.{sink_seen};
ghost use Rattle.mls_book.specs.Keepers.{keepers_seen};
ghost use Rattle.mls_cli.specs.Words.{words_of};
ghost use Rattle.mls_cli.specs.Ideal.{RefusesExactly, ideal, task_of, saves_of, right_command, command_task, command_saves};
ghost use Rattle.mls_cli.specs.Answers.{Carries, DidNotRise, IsAsked, IsDoneOrMemory, IsQuiet, IsRight, IsUncalled};
ghost use Rattle.mls_cli.specs.Answers.{AreSound, IsHeld, IsSure, NoneRose, NoSaveRose, RoseAt, SavesCounted, TakesText};
ghost use Rattle.mls_cli.specs.Answers.{TellsRight, WriteFails};
ghost use Rattle.mls_export.specs.Files.{seen};
ghost use Rattle.mls_cli.specs.Orders.{HasPlainLines, printed_of};

use crate::bins::run_bins;
use crate::design::run_design;
use crate::export::run_export;
use crate::fold::run_fold;
use crate::resume::run_resume;
use crate::trial::run_trial;
use crate::watch::run_watch;
use crate::words::{Words, WordsFault, read_words};
use mls_base::outside::{Files, Keeper, Sink};
use mls_orders::completed_keys::no_rank_crashes;
use mls_orders::result_lines::result_text_has_the_plain_lines;
use mls_result::Status;
use std::alloc::Global;

/// Carries out a command.
fn carry_out<F: Files, O: Sink, K: Keeper + Drop>(
    alloc: Global,
    command: Words,
    files: &mut F,
    out: &mut O,
    keepers: Vec<K>,
) -> (Status, Vec<K>)
    requires { vec_len keepers ≡ 64 }
    ensures carried { Carries (command_saves command) (right_command command) (command_task command)
        (seen F.held F.sound F.load_faults F.save_faults files.old)
        (seen F.held F.sound F.load_faults F.save_faults files.new)
        (sink_seen O.told O.faults O.sure out.old) (sink_seen O.told O.faults O.sure out.new)
        (keepers_seen K.Keeper keepers.items) (keepers_seen K.Keeper result.1.items) result.0 }
    ensures no_usage { result.0 ≡ Status.Usage → ⊥ }
    ensures places { vec_len result.1 ≡ 64 }
    ensures uncalled { IsUncalled result.0 → result.1 ≡ keepers }
{
    match command {
        Words::Fold {
            study,
            tape,
            schedule,
        } => return run_fold(
            alloc,
            study.as_str(),
            tape.as_str(),
            &schedule,
            files,
            out,
            keepers,
        ),
        Words::Bins {
            study,
            tape,
            schedule,
        } => return run_bins(
            alloc,
            study.as_str(),
            tape.as_str(),
            &schedule,
            files,
            out,
            keepers,
        ),
        Words::Watch { study, events } => {
            let status = run_watch(alloc, study.as_str(), events.as_str(), files, out);
            return (status, keepers);
        }
        Words::Design { study } => {
            let status = run_design(alloc, study.as_str(), files, out);
            return (status, keepers);
        }
        Words::Trial {
            study,
            number,
            saved,
        } => return run_trial(alloc, study.as_str(), number, &saved, files, out, keepers),
        Words::Export { study, prefix } => {
            return run_export(alloc, study.as_str(), prefix.as_str(), files, keepers);
        }
        Words::Resume {
            study,
            old,
            prefix,
            tape,
            schedule,
        } => return run_resume(
            alloc,
            study.as_str(),
            old,
            prefix.as_str(),
            tape.as_str(),
            &schedule,
            files,
            out,
            keepers,
        ),
    }
}

/// Carries out the command that the words say.
fn run<F: Files, O: Sink, K: Keeper + Drop>(
    alloc: Global,
    words: &[String],
    files: &mut F,
    out: &mut O,
    keepers: Vec<K>,
) -> (Status, Vec<K>)
    requires { vec_len keepers ≡ 64 }
    ensures carried { Carries (saves_of (map string_bytes words.now)) (λ held. ideal held (map string_bytes words.now))
        (λ held. task_of held (map string_bytes words.now))
        (seen F.held F.sound F.load_faults F.save_faults files.old)
        (seen F.held F.sound F.load_faults F.save_faults files.new)
        (sink_seen O.told O.faults O.sure out.old) (sink_seen O.told O.faults O.sure out.new)
        (keepers_seen K.Keeper keepers.items) (keepers_seen K.Keeper result.1.items) result.0 }
    ensures usage { (result.0 ≡ Status.Usage) ↔ (words_of (map string_bytes words.now) ≡ None) }
    ensures places { vec_len result.1 ≡ 64 }
    ensures uncalled { IsUncalled result.0 → result.1 ≡ keepers }
{
    match read_words(alloc, words) {
        Ok(command) => return carry_out(alloc, command, files, out, keepers),
        Err(WordsFault::Usage) => return (Status::Usage, keepers),
        Err(WordsFault::Memory) => return (Status::Memory, keepers),
    }
}

/// The program `melissa` without its outside: carries out the command that the words say (those after the program's
/// name) over these files, this sink and these 64 keepers, and says how it went.
///
/// Where the files tell what they hold, the sink has gained exactly the text that the words and the named files' bytes
/// ask for where the answer is `Done`, a front of it after `WriteFault`, and nothing after every other answer. A fold
/// calls the keeper of a rank at the saves and crashes of its history; each keeper comes back in its place. A trial with
/// names saves the tape and the schedule that it makes before it folds them. An export writes no text: it saves what the
/// keeper of each rank holds. A resume goes on from such files. No other command saves a file.
pub fn melissa<F: Files, O: Sink, K: Keeper + Drop>(
    alloc: Global,
    words: &[String],
    files: &mut F,
    out: &mut O,
    keepers: Vec<K>,
) -> (Status, Vec<K>)
    requires { vec_len keepers ≡ 64 }

    // The text that is right, or the refusal that is. Of a fold the text is right where each keeper tells what it holds,
    // or no crash of its rank's history stands behind a save; whatever the keepers tell, it is that of some cores of the
    // study and of the lanes. Each keeper that tells holds the last save of its rank's history, or what it held; after a
    // rank's fault the keepers below ran over their histories, and those above are as before. What a trial with names
    // makes is saved before its fold, and its line `groups` has the study's number of groups twice. An export asks the
    // keeper of each rank of the study once, in rising rank, and saves what it gives before the next is asked; it ends at
    // the first get that fails, keeper that holds nothing, or save that fails. The files of the ranks below stay saved.
    // The text of a resume is, for all histories that its ranks' lists open with, the one over each of them, a save and
    // the events of this run, where each keeper tells or no crash stands behind a save of this run; whatever the keepers
    // tell, it is that of some cores. The keepers are left as by a fold of the whole histories.
    ensures right { (held : Names) → F.held files.old ≡ Some held →
        TellsRight (saves_of (map string_bytes words.now)) (ideal held (map string_bytes words.now))
        (task_of held (map string_bytes words.now))
        (seen F.held F.sound F.load_faults F.save_faults files.old)
        (seen F.held F.sound F.load_faults F.save_faults files.new)
        (sink_seen O.told O.faults O.sure out.old) (sink_seen O.told O.faults O.sure out.new)
        (keepers_seen K.Keeper keepers.items) (keepers_seen K.Keeper result.1.items) result.0 }

    // Where the order of the tape doesn't matter and the schedule is complete, the text of a fold has the step and cell
    // lines of the plain schedule, whatever the keepers tell.
    ensures orders { (held : Names) → F.held files.old ≡ Some held → result.0 ≡ Status.Done →
        HasPlainLines (printed_of held (map string_bytes words.now))
        (sink_seen O.told O.faults O.sure out.old) (sink_seen O.told O.faults O.sure out.new) }

    // Where the words are no command, told files or not.
    ensures usage { (result.0 ≡ Status.Usage) ↔ (words_of (map string_bytes words.now) ≡ None) }

    // Each refusal comes exactly where it is the first, but that memory may be wanting or a read may fail before, and that
    // a bad checkpoint is answered too where a crash read it of its keeper.
    ensures refused { RefusesExactly (F.held files.old) (map string_bytes words.now) result.0 }

    // Over sound files that tell, sound keepers of which it is known what they leave, and a sink that takes the text for
    // sure, the answer is the one that the words, the files and the keepers ask for, or memory is wanting: a read fails
    // exactly where the first refusal is that a name isn't held, and an export is refused exactly at the first rank whose
    // keeper holds nothing. Of a resume the sink takes the text over some histories that its ranks' lists open with.
    ensures sound { (held : Names) → F.held files.old ≡ Some held → IsTrue (F.sound files.old) →
        IsSure (task_of held (map string_bytes words.now)) (keepers_seen K.Keeper keepers.items) →
        AreSound (keepers_seen K.Keeper keepers.items) →
        TakesText (task_of held (map string_bytes words.now)) (ideal held (map string_bytes words.now))
        (sink_seen O.told O.faults O.sure out.old) →
        IsAsked (task_of held (map string_bytes words.now)) (keepers_seen K.Keeper keepers.items)
        (ideal held (map string_bytes words.now)) result.0 }

    // The causes of faults of the outside.
    ensures read_fault { result.0 ≡ Status.ReadFault → Rose (F.load_faults files.old) (F.load_faults files.new) }
    ensures write_fault { result.0 ≡ Status.WriteFault → WriteFails (saves_of (map string_bytes words.now))
        (seen F.held F.sound F.load_faults F.save_faults files.old)
        (seen F.held F.sound F.load_faults F.save_faults files.new)
        (sink_seen O.told O.faults O.sure out.old) (sink_seen O.told O.faults O.sure out.new) }
    ensures keeper_fault { (rank : ℕ) → result.0 ≡ Status.KeeperFault rank →
        RoseAt rank (keepers_seen K.Keeper keepers.items) (keepers_seen K.Keeper result.1.items) }

    // After every answer but `Done` and `WriteFault` a told sink is as it was, told files or not.
    ensures quiet { IsQuiet result.0 → O.told out.new ≡ O.told out.old }

    // Where there is a text, it is known what the keepers leave, they hold what an export is to save, and no count rose, the
    // command is carried out or memory is wanting.
    ensures complete { (held : Names) → F.held files.old ≡ Some held →
        IsRight (ideal held (map string_bytes words.now)) →
        IsSure (task_of held (map string_bytes words.now)) (keepers_seen K.Keeper keepers.items) →
        IsHeld (task_of held (map string_bytes words.now)) (keepers_seen K.Keeper keepers.items) →
        DidNotRise (F.load_faults files.old) (F.load_faults files.new) →
        NoSaveRose (saves_of (map string_bytes words.now)) (F.save_faults files.old) (F.save_faults files.new) →
        DidNotRise (O.faults out.old) (O.faults out.new) →
        NoneRose (keepers_seen K.Keeper keepers.items) (keepers_seen K.Keeper result.1.items) →
        IsDoneOrMemory result.0 }

    // There are as many keepers as before; after a refusal each is as it was. The count of failed saves stands, but
    // after `WriteFault` of a trial with names or of an export.
    ensures places { vec_len result.1 ≡ 64 }
    ensures uncalled { IsUncalled result.0 → result.1 ≡ keepers }
    ensures saves { SavesCounted (saves_of (map string_bytes words.now))
        (F.save_faults files.old) (F.save_faults files.new) result.0 }
{
    no_rank_crashes();
    result_text_has_the_plain_lines();
    run(alloc, words, files, out, keepers)
}
