//! The limits of the numbers of a study.

/// The most cells, and the most cells times planes.
pub const MOST_CELLS: u32 = 1_048_576;

/// The most time steps.
pub const MOST_STEPS: u32 = 4096;

/// The most groups.
pub const MOST_GROUPS: u32 = 65_535;

/// The most parameters.
pub const MOST_PARAMETERS: u32 = 16;

/// The most ranks, and the most clients.
pub const MOST_WORKERS: u32 = 64;

/// The most groups that run at once.
pub const MOST_SLOTS: u32 = 65_535;

/// The most seconds of silence.
pub const MOST_SILENCE: u32 = 86_400;

/// The most lives of a group.
pub const MOST_LIVES: u32 = 255;

/// The most thresholds.
pub const MOST_THRESHOLDS: u32 = 8;

/// The most fields.
pub const MOST_FIELDS: u32 = 4;

/// The most groups times planes times ranks.
pub const MOST_MARKS: u64 = 1_073_741_824;
