//! The names of the files.

ghost use Rattle.std.specs.Prelude.{◌≡◌, string_bytes, IfOk};
ghost use Rattle.mls_export.specs.Files.{file_name};

use std::alloc::{AllocError, Global};

/// The name of a rank's file: the prefix, a point and the rank in decimal.
pub fn file_name(alloc: Global, prefix: &str, rank: u32) -> Result<String, AllocError>
    ensures { IfOk result (λ name. string_bytes name ≡ file_name prefix.now rank) }
{
    format!(in alloc; "{prefix}.{rank}")
}
