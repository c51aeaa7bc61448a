//! A key with its pieces, put into a checkpoint.

ghost use Rattle.std.specs.Prelude.{◌≡◌, ◌≤◌, [], ◌++◌, length, OnOk};
ghost use Rattle.mls_ckpt.specs.Spellings.{key_text};
ghost use Rattle.mls_assembly.specs.Saved.{key_saved};

use crate::group_step::GroupStep;
use crate::key_pieces::KeyPieces;
use mls_base::faults::NoMemory;
use mls_ckpt::Put;

/// Appends a key, its life and its pieces.
#[tactic(auto, unfolding(mls_ckpt::specs::Spellings::key_text))]
pub(crate) fn put_key(key: &GroupStep, pieces: &KeyPieces, out: &mut Put) -> Result<(), NoMemory>
    requires { length pieces.now.shares ≤ 64 }
    ensures { OnOk result (out.new ≡ out.old ++ key_text (key_saved (key.now, pieces.now)) []) }
{
    out.put_u32(key.group)?;
    out.put_u32(key.step)?;
    out.put_u32(pieces.life())?;
    out.put_u16(pieces.count())?;
    pieces.put_all(out)
}
