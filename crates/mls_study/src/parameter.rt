//! A parameter of a study.

ghost use Rattle.std.specs.Prelude.{pos, negsuc, ◌≤ℤ◌, ◌-ℤ◌, string_bytes, IsTrue};
ghost use Rattle.mls_model.specs.Studies.{is_name};

/// A parameter: its name, and its least and greatest value.
#[derive(Debug, Drop)]
pub struct Parameter {
    pub name: String,
    pub low: i64,
    pub high: i64,
    ghost named: { IsTrue (is_name (string_bytes name)) },
    ghost low_bound: { negsuc 4294967295 ≤ℤ low },
    ghost ordered: { low ≤ℤ high },
    ghost high_bound: { high ≤ℤ pos 4294967295 },
    ghost width: { (high -ℤ low) ≤ℤ pos 4294967295 },
}
