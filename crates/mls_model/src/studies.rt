//! Names of a study file's parts.

/// The statistics that a study may show.
#[derive(Clone, Copy, Debug, PartialEq, Eq)]
pub enum Statistic {
    /// Power sums with the variance and the third central moment.
    Power,
    /// The least and the greatest sample.
    Extrema,
    /// The numbers of samples above the thresholds.
    Exceed,
    /// The Sobol indices.
    Sobol,
}

/// A key of a study file. A parameter's place counts from 0.
#[derive(Clone, Copy, Debug, PartialEq, Eq)]
pub enum Key {
    Cells,
    Steps,
    Groups,
    Ranks,
    Clients,
    Seed,
    Samples,
    Fields,
    Statistics,
    Thresholds,
    Slots,
    Silence,
    Lives,
    Parameters,
    ParamName { place: u32 },
    ParamLow { place: u32 },
    ParamHigh { place: u32 },
}

/// The two products of a study's numbers that have a limit.
#[derive(Clone, Copy, Debug, PartialEq, Eq)]
pub enum Product {
    /// cells · steps · fields
    CellsSteps,
    /// groups · steps · fields · ranks
    GroupsStepsRanks,
}
