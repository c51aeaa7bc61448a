//! The states that the keepers hold, saved as files.

ghost use Rattle.std.specs.Prelude.{◌≡◌, ◌≢◌, ℕ, ◌<◌, vec_len};
ghost use Rattle.mls_model.specs.Numbers.{element};
ghost use Rattle.mls_book.specs.Keepers.{AtRank, keeper_seen, keepers_seen};
ghost use Rattle.mls_export.specs.Files.{seen};
ghost use Rattle.mls_export.specs.Exports.{Exports, ExportsRank, Gets, Saves};

use crate::faults::ExportFault;
use crate::naming::file_name;
use mls_base::faults::StoreFault;
use mls_base::outside::{Files, Keeper};
use mls_base::shape::Shape;
use std::alloc::Global;

/// What a keeper gives.
fn get_from<K: Keeper>(alloc: Global, keeper: &mut K) -> Result<Option<Vec<u8>>, StoreFault>
    ensures { Gets result (keeper_seen K.Keeper keeper.old) (keeper_seen K.Keeper keeper.new) }
{
    match keeper.get(alloc) {
        Ok(given) => return Ok(given),
        Err(StoreFault::Failed) => return Err(StoreFault::Failed),
        Err(StoreFault::Memory) => return Err(StoreFault::Memory),
    }
}

/// What the keeper of a rank gives.
fn get_of<K: Keeper>(
    alloc: Global,
    rank: u32,
    keepers: &mut Vec<K>,
) -> Result<Option<Vec<u8>>, StoreFault>
    requires place { rank < vec_len keepers.old }
    ensures own { AtRank rank (keepers_seen K.Keeper keepers.old.items) (keepers_seen K.Keeper keepers.new.items)
        (Gets result) }
    ensures others { (other : ℕ) → other ≢ rank → element keepers.new.items other ≡ element keepers.old.items other }
    ensures places { vec_len keepers.new ≡ vec_len keepers.old }
{
    get_from(alloc, &mut keepers[rank as usize])
}

/// Saves bytes under the name of a rank's file.
fn save_under<F: Files>(
    alloc: Global,
    name: &str,
    bytes: &[u8],
    files: &mut F,
) -> Result<(), ExportFault>
    ensures { Saves result name.now bytes.now
        (seen F.held F.sound F.load_faults F.save_faults files.old)
        (seen F.held F.sound F.load_faults F.save_faults files.new) }
{
    match files.save(alloc, name, bytes) {
        Ok(()) => return Ok(()),
        Err(StoreFault::Failed) => return Err(ExportFault::WriteFault),
        Err(StoreFault::Memory) => return Err(ExportFault::Memory),
    }
}

/// Saves what the keeper of a rank holds.
fn export_rank<F: Files, K: Keeper>(
    alloc: Global,
    prefix: &str,
    rank: u32,
    files: &mut F,
    keepers: &mut Vec<K>,
) -> Result<(), ExportFault>
    requires place { rank < vec_len keepers.old }
    ensures own { ExportsRank result rank prefix.now
        (seen F.held F.sound F.load_faults F.save_faults files.old)
        (seen F.held F.sound F.load_faults F.save_faults files.new)
        (keepers_seen K.Keeper keepers.old.items) (keepers_seen K.Keeper keepers.new.items) }
    ensures others { (other : ℕ) → other ≢ rank → element keepers.new.items other ≡ element keepers.old.items other }
    ensures places { vec_len keepers.new ≡ vec_len keepers.old }
{
    let Ok(name) = file_name(alloc, prefix, rank) else {
        return Err(ExportFault::Memory);
    };
    match get_of(alloc, rank, keepers) {
        Ok(Some(bytes)) => return save_under(alloc, name.as_str(), bytes.as_slice(), files),
        Ok(None) => return Err(ExportFault::Absent { rank }),
        Err(StoreFault::Failed) => return Err(ExportFault::KeeperFault { rank }),
        Err(StoreFault::Memory) => return Err(ExportFault::Memory),
    }
}

/// Saves what the keepers of a study's ranks hold, each rank's under the prefix with a point and the rank's decimal
/// behind it. The bytes aren't looked at.
///
/// Keeper after keeper is asked once, in rising rank, and what it gives is saved before the next is asked. `Absent` is
/// answered exactly where a keeper gave nothing. Whatever ends the export, the files of the ranks below stay saved and
/// the keepers above aren't called.
pub fn export<F: Files, K: Keeper + Drop>(
    alloc: Global,
    shape: &Shape,
    prefix: &str,
    files: &mut F,
    keepers: Vec<K>,
) -> (Result<(), ExportFault>, Vec<K>)
    requires keepers { vec_len keepers ≡ 64 }
    ensures exports { Exports result.0 shape.now.ranks prefix.now
        (seen F.held F.sound F.load_faults F.save_faults files.old)
        (seen F.held F.sound F.load_faults F.save_faults files.new)
        (keepers_seen K.Keeper keepers.items) (keepers_seen K.Keeper result.1.items) }
    ensures places { vec_len result.1 ≡ 64 }
{
    shape.valid();
    let mut keepers = keepers;
    for rank in 0..shape.ranks() {
        match export_rank(alloc, prefix, rank, files, &mut keepers) {
            Ok(()) => {}
            Err(fault) => return (Err(fault), keepers),
        }
    }
    (Ok(()), keepers)
}
