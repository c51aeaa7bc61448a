//! The end of a run: its result is written, and then the schedule that was run is saved.

ghost use Rattle.std.specs.Prelude.{◌≡◌, ℕ, ◌+◌, ◌<◌, ◌≤◌, List, [], ◌∷◌, ◌++◌, map, vec_len, vec_capacity, IfOk};
ghost use Rattle.mls_model.specs.Schedules.{schedule_text};
ghost use Rattle.mls_text.specs.Writing.{sink_seen};
ghost use Rattle.mls_model.specs.ResultText.{lines_of};
ghost use Rattle.mls_result.specs.Histories.{AreCores};
ghost use Rattle.mls_load.specs.Refusals.{seen};
ghost use Rattle.mls_pool.specs.Pools.{journals};
ghost use Rattle.mls_live.specs.Ending.{AreOf, AreOnTape, ComeBack, Ends, GoesOut, OfBooks, TookLast, own_keepers};

use mls_base::faults::{NoMemory, StoreFault};
use mls_base::outside::{Files, Keeper, Sink};
use mls_book::{Book, Finished};
use mls_field::field::Field;
use mls_launch::OutFault;
use mls_rank::RankCore;
use mls_replay::lines_of;
use mls_result::write_result;
use mls_study::Study;
use mls_tape::{LaneLine, Schedule, Tape};
use std::alloc::Global;

/// Puts an item before the others. There is room for it.
fn put_first<T: Drop>(items: &mut Vec<T>, item: T)
    requires { vec_len items.old < vec_capacity items.old }
    ensures items { items.new.items ≡ item ∷ items.old.items }
    ensures len { vec_len items.new ≡ vec_len items.old + 1 }
    ensures capacity { vec_capacity items.old ≤ vec_capacity items.new }
{
    match items.insert(0, item) {
        Ok(()) => {}
        Err(_) => unreachable!(),
    }
}

/// The keepers of the books, in order, before the others. There is room for them.
pub(crate) fn keepers_of<'t, K: Keeper + Drop>(
    books: Vec<Book<&'t Tape, Field, K>>,
    spare: Vec<K>,
) -> Vec<K>
    requires { vec_len books + vec_len spare ≤ vec_capacity spare }
    ensures { result.items ≡ own_keepers books.entry.items ++ spare.items }
{
    let mut books = books;
    let mut keepers = spare;
    for _ in 0..books.len() {
        match books.pop() {
            Some(book) => put_first(&mut keepers, book.finish().keeper),
            None => {}
        }
    }
    keepers
}

/// Takes the last book apart. What it ends with goes before what others ended with; there is room for it.
fn finish_last<'t, K: Keeper + Drop>(
    books: &mut Vec<Book<&'t Tape, Field, K>>,
    cores: &mut Vec<RankCore<Field>>,
    lists: &mut Vec<Vec<u32>>,
    keepers: &mut Vec<K>,
)
    requires some { 0 < vec_len books.old }
    requires core { vec_len cores.old < vec_capacity cores.old }
    requires list { vec_len lists.old < vec_capacity lists.old }
    requires keeper { vec_len keepers.old < vec_capacity keepers.old }
    ensures took { TookLast K.Keeper books.old.items books.new.items cores.old.items cores.new.items
        lists.old.items lists.new.items keepers.old.items keepers.new.items }
    ensures books { vec_len books.new + 1 ≡ vec_len books.old }
    ensures cores { (vec_len cores.new ≡ vec_len cores.old + 1) × (vec_capacity cores.old ≤ vec_capacity cores.new) }
    ensures lists { (vec_len lists.new ≡ vec_len lists.old + 1) × (vec_capacity lists.old ≤ vec_capacity lists.new) }
    ensures keepers { (vec_len keepers.new ≡ vec_len keepers.old + 1)
        × (vec_capacity keepers.old ≤ vec_capacity keepers.new) }
{
    let Some(book) = books.pop() else {
        unreachable!();
    };
    book.on_tape();
    let Finished {
        journal,
        core,
        keeper,
    } = book.finish();
    put_first(cores, core);
    put_first(lists, journal);
    put_first(keepers, keeper);
}

/// What the end of a run has room for before its books are taken apart.
#[derive(Drop)]
struct Room {
    lines: Vec<LaneLine>,
    cores: Vec<RankCore<Field>>,
    lists: Vec<Vec<u32>>,
}

/// The lanes' lines, and room for so many cores and lists.
fn room_for(alloc: Global, tape: &Tape, ranks: usize) -> Result<Room, NoMemory>
    ensures lines { IfOk result (λ room. room.lines.items ≡ lines_of tape.now.lanes) }
    ensures cores { IfOk result (λ room. (room.cores.items ≡ []) × (ranks ≤ vec_capacity room.cores)) }
    ensures lists { IfOk result (λ room. (room.lists.items ≡ []) × (ranks ≤ vec_capacity room.lists)) }
{
    let Ok(lines) = lines_of(alloc, tape) else {
        return Err(NoMemory);
    };
    let cores = Vec::with_capacity(alloc, ranks)?;
    let lists = Vec::with_capacity(alloc, ranks)?;
    Ok(Room {
        lines,
        cores,
        lists,
    })
}

/// The cores of a run and their journals, in rank order, and the keepers of the books before the others.
#[derive(Drop)]
struct Parts<K: Keeper + Drop> {
    cores: Vec<RankCore<Field>>,
    lists: Vec<Vec<u32>>,
    keepers: Vec<K>,
}

/// Takes the books apart. There is room for what they end with.
fn finish_books<'t, K: Keeper + Drop>(
    books: Vec<Book<&'t Tape, Field, K>>,
    cores: Vec<RankCore<Field>>,
    lists: Vec<Vec<u32>>,
    spare: Vec<K>,
) -> Parts<K>
    requires cores { (cores.items ≡ []) × (vec_len books ≤ vec_capacity cores) }
    requires lists { (lists.items ≡ []) × (vec_len books ≤ vec_capacity lists) }
    requires keepers { vec_len books + vec_len spare ≤ vec_capacity spare }
    ensures { AreOf K.Keeper books.entry.items result.cores.items result.lists.items spare.items
        result.keepers.items }
{
    let mut books = books;
    let mut cores = cores;
    let mut lists = lists;
    let mut keepers = spare;
    for _ in 0..books.len() {
        finish_last(&mut books, &mut cores, &mut lists, &mut keepers);
    }
    Parts {
        cores,
        lists,
        keepers,
    }
}

/// Writes the text of the cores and of the lanes' lines, and then saves the schedule under the name. The schedule's text
/// is made before.
fn write_and_save<F: Files, O: Sink>(
    alloc: Global,
    study: &Study,
    cores: &[RankCore<Field>],
    lines: &[LaneLine],
    schedule: &Schedule,
    name: &str,
    files: &mut F,
    out: &mut O,
) -> Result<(), OutFault>
    requires { AreCores study.now.sizes cores.now }
    ensures { Ends (GoesOut study.now cores.now lines.now) name.now (schedule_text schedule.now) result
        (seen F.held F.sound F.load_faults F.save_faults files.old)
        (seen F.held F.sound F.load_faults F.save_faults files.new)
        (sink_seen O.told O.faults O.sure out.old) (sink_seen O.told O.faults O.sure out.new) }
{
    let text = match schedule.put(alloc) {
        Ok(text) => text,
        Err(_) => return Err(OutFault::Memory),
    };
    match write_result(study, cores, lines, out) {
        Ok(()) => {}
        Err(_) => return Err(OutFault::WriteFault),
    }
    match files.save(alloc, name, text.as_slice()) {
        Ok(()) => return Ok(()),
        Err(StoreFault::Failed) => return Err(OutFault::WriteFault),
        Err(StoreFault::Memory) => return Err(OutFault::Memory),
    }
}

/// The end of a run whose keepers have room before the others.
pub(crate) fn end_books<'t, F: Files, O: Sink, K: Keeper + Drop>(
    alloc: Global,
    study: &Study,
    tape: &Tape,
    name: &str,
    books: Vec<Book<&'t Tape, Field, K>>,
    spare: Vec<K>,
    files: &mut F,
    out: &mut O,
) -> (Result<(), OutFault>, Vec<K>)
    requires books { AreOnTape tape.now.lanes study.now.sizes books.items }
    requires room { vec_len books + vec_len spare ≤ vec_capacity spare }
    ensures ends { Ends (OfBooks K.Keeper study.now tape.now.lanes books.entry.items)
        name.now (schedule_text (journals books.entry.items)) result.0
        (seen F.held F.sound F.load_faults F.save_faults files.old)
        (seen F.held F.sound F.load_faults F.save_faults files.new)
        (sink_seen O.told O.faults O.sure out.old) (sink_seen O.told O.faults O.sure out.new) }
    ensures keepers { result.1.items ≡ own_keepers books.entry.items ++ spare.items }
{
    let Room {
        lines,
        cores,
        lists,
    } = match room_for(alloc, tape, books.len()) {
        Ok(room) => room,
        Err(_) => return (Err(OutFault::Memory), keepers_of(books, spare)),
    };
    let Parts {
        cores,
        lists,
        keepers,
    } = finish_books(books, cores, lists, spare);
    let schedule = Schedule::of(lists);
    let answer = write_and_save(
        alloc,
        study,
        cores.as_slice(),
        lines.as_slice(),
        &schedule,
        name,
        files,
        out,
    );
    (answer, keepers)
}

/// The end of a run: writes the result text of the books' cores, and then saves under the name the schedule whose lists
/// are the books' journals. The keepers come back in rank order.
///
/// After `WriteFault` either a front of the text went out and nothing was saved, or the whole text went out and the save
/// failed. After `Memory` nothing was saved and the text went out or nothing did; the keepers may then be dropped.
pub fn end_run<'t, F: Files, O: Sink, K: Keeper + Drop>(
    alloc: Global,
    study: &Study,
    tape: &Tape,
    name: &str,
    books: Vec<Book<&'t Tape, Field, K>>,
    files: &mut F,
    out: &mut O,
) -> (Result<(), OutFault>, Vec<K>)
    requires { AreOnTape tape.now.lanes study.now.sizes books.items }

    // The text is that of the books' cores, and the result text of their journals where it is sure that the cores stand
    // for them; the schedule that is saved is these journals.
    ensures ends { Ends (OfBooks K.Keeper study.now tape.now.lanes books.entry.items)
        name.now (schedule_text (journals books.entry.items)) result.0
        (seen F.held F.sound F.load_faults F.save_faults files.old)
        (seen F.held F.sound F.load_faults F.save_faults files.new)
        (sink_seen O.told O.faults O.sure out.old) (sink_seen O.told O.faults O.sure out.new) }
    ensures keepers { ComeBack result.0 (own_keepers books.entry.items) result.1.items }
{
    match Vec::with_capacity(alloc, books.len()) {
        Ok(room) => return end_books(alloc, study, tape, name, books, room, files, out),
        Err(_) => return (Err(OutFault::Memory), Vec::new(alloc)),
    }
}
