//! The end of a server's desk: the cores, and the keepers in their places.

ghost use Rattle.std.specs.Prelude.{◌≡◌, ℕ, ◌+◌, ◌<◌, ◌≤◌, List, vec_len, vec_capacity};
ghost use Rattle.mls_model.specs.Studies.{Sizes};
ghost use Rattle.mls_desk.specs.Desks.{HasRoom};
ghost use Rattle.mls_desk.specs.Books.{AreSeated};
ghost use Rattle.mls_desk.specs.Ends.{AreOf, EndsRun, TookLast};

use crate::begin::put_first;
use mls_base::outside::Keeper;
use mls_book::{Book, Finished};
use mls_field::field::Field;
use mls_held::Run;
use mls_rank::RankCore;
use mls_tape::Wire;

/// The ranks' cores, and all keepers: the ranks' in order, then the others.
#[derive(Drop)]
pub struct DeskEnd<K: Keeper + Drop> {
    pub cores: Vec<RankCore<Field>>,
    pub keepers: Vec<K>,
}

/// Takes the last book apart. What it ends with goes before what others ended with; there is room for it.
fn finish_last<K: Keeper + Drop>(
    books: &mut Vec<Book<Wire, Field, K>>,
    cores: &mut Vec<RankCore<Field>>,
    keepers: &mut Vec<K>,
)
    requires some { 0 < vec_len books.old }
    requires core { vec_len cores.old < vec_capacity cores.old }
    requires keeper { vec_len keepers.old < vec_capacity keepers.old }
    ensures took { TookLast K.Keeper books.old.items books.new.items cores.old.items cores.new.items
        keepers.old.items keepers.new.items }
    ensures books { vec_len books.new + 1 ≡ vec_len books.old }
    ensures cores { (vec_len cores.new ≡ vec_len cores.old + 1) × (vec_capacity cores.old ≤ vec_capacity cores.new) }
    ensures keepers { (vec_len keepers.new ≡ vec_len keepers.old + 1)
        × (vec_capacity keepers.old ≤ vec_capacity keepers.new) }
{
    let Some(book) = books.pop() else {
        unreachable!();
    };
    book.valid();
    let Finished { core, keeper, .. } = book.finish();
    put_first(cores, core);
    put_first(keepers, keeper);
}

/// Takes the books apart. There is room for what they end with.
fn finish_books<K: Keeper + Drop>(
    books: Vec<Book<Wire, Field, K>>,
    cores: Vec<RankCore<Field>>,
    spare: Vec<K>,
) -> DeskEnd<K>
    requires cores { (vec_len cores ≡ 0) × (vec_len books ≤ vec_capacity cores) }
    requires keepers { vec_len books + vec_len spare ≤ vec_capacity spare }
    ensures { AreOf K.Keeper books.items result.cores.items spare.items result.keepers.items }
{
    let mut books = books;
    let mut cores = cores;
    let mut keepers = spare;
    for _ in 0..books.len() {
        finish_last(&mut books, &mut cores, &mut keepers);
    }
    DeskEnd { cores, keepers }
}

/// Takes the books of a run apart: their cores, and their keepers before the others. There is room for them.
pub fn end_desk<K: Keeper + Drop, N: Run>(
    books: Vec<Book<Wire, Field, K>>,
    cores: Vec<RankCore<Field>>,
    spare: Vec<K>,
) -> DeskEnd<K>
    requires few { vec_len books ≤ 64 }
    requires seated { AreSeated K.Keeper N.Run books.items }
    requires cores { HasRoom cores }
    requires keepers { vec_len books + vec_len spare ≤ vec_capacity spare }
    ensures { (lanes : ℕ) (s : Sizes) (keepers : List _) → EndsRun K.Keeper N.Run lanes s books.items
        result.cores.items spare.items keepers result.keepers.items }
{
    finish_books(books, cores, spare)
}
