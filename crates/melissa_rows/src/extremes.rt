//! Studies and tapes of 65,535 groups, all of whose samples are the largest or the least. They are made, since each tape
//! has more than two million bytes.

use mls_base::faults::NoMemory;
use mls_base::memory::MemFiles;
use std::alloc::{AllocError, Global};

const STUDY: &[u8] =
    b"cells = 1\nsteps = 1\ngroups = 65535\nthresholds = [65534, 65535]\n[[parameters]]\nname = \"x\"\nlow = 0\nhigh = 9\n";

const SIGNED_STUDY: &[u8] =
    b"cells = 1\nsteps = 1\ngroups = 65535\nsamples = \"i16\"\nthresholds = [-32768]\n[[parameters]]\nname = \"x\"\nlow = 0\nhigh = 9\n";

// What stands in a tape before the length of its only lane, a client's of rank 0, and the same of signed samples.
const HEAD: &[u8] = &[77, 84, 65, 80, 0, 1, 0, 0, 0, 1, 0, 0, 0];

const SIGNED_HEAD: &[u8] = &[77, 84, 65, 80, 0, 2, 1, 0, 0, 0, 1, 0, 0, 0];

/// How many groups there are, and the bytes of their pieces.
const GROUPS: u32 = 65_535;

const LANE_LENGTH: u32 = 65_535 * 35;

/// The bytes of a tape, a piece of each group with three samples of these two bytes.
fn tape(alloc: Global, head: &[u8], sample: [u8; 2]) -> Result<Vec<u8>, AllocError> {
    let mut bytes = Vec::new(alloc);
    bytes.extend_from_slice(head)?;
    bytes.extend_from_slice(LANE_LENGTH.to_be_bytes().as_slice())?;
    for group in 0..GROUPS {
        bytes.extend_from_slice(&[0, 0, 0, 31, 1, 0, 0, 0, 1])?;
        bytes.extend_from_slice(group.to_be_bytes().as_slice())?;
        bytes.extend_from_slice(&[0, 0, 0, 0, 0, 0, 0, 3, 0, 0, 0, 0, 0, 0, 0, 1])?;
        bytes.extend_from_slice(sample.as_slice())?;
        bytes.extend_from_slice(sample.as_slice())?;
        bytes.extend_from_slice(sample.as_slice())?;
    }
    Ok(bytes)
}

/// The files `largest.toml`, `largest.tape`, `least.toml` and `least.tape`.
pub(crate) fn extreme_files(alloc: Global) -> Result<MemFiles, NoMemory> {
    let mut files = MemFiles::new(alloc, Vec::new(alloc));
    let largest = tape(alloc, HEAD, [255, 255])?;
    let least = tape(alloc, SIGNED_HEAD, [128, 0])?;
    files.set("largest.toml", STUDY)?;
    files.set("largest.tape", largest.as_slice())?;
    files.set("least.toml", SIGNED_STUDY)?;
    files.set("least.tape", least.as_slice())?;
    Ok(files)
}
