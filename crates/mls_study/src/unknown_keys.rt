//! The keys that no study file has.

ghost use Rattle.std.specs.Prelude.{◌≡◌, option_map};
ghost use Rattle.toml.specs.View.{items_view, table_view};
ghost use Rattle.mls_study.specs.UnknownKeys.{is_known_key, lesser_of, least_unknown, first_unknown};

use toml::{Table, Value};

/// Which keys a table may have.
#[derive(Clone, Copy)]
pub enum TableKind {
    /// Those of a study file.
    Study,
    /// Those of a parameter.
    Parameter,
}

fn is_known(kind: TableKind, key: &str) -> bool
    ensures { result ≡ is_known_key kind key.now }
{
    match kind {
        TableKind::Study => [
            "cells",
            "steps",
            "groups",
            "ranks",
            "clients",
            "seed",
            "samples",
            "fields",
            "statistics",
            "thresholds",
            "slots",
            "silence",
            "lives",
            "parameters",
        ]
        .contains(&key),
        TableKind::Parameter => ["name", "low", "high"].contains(&key),
    }
}

/// The key or the least one before it, whichever comes first in the order of bytes.
fn lesser<'a>(least: Option<&'a str>, key: &'a str) -> &'a str
    ensures { result.now ≡ lesser_of (option_map (λ s. s.now) least.entry) key.now }
{
    match least {
        Some(least) if key < least => key,
        Some(least) => least,
        None => key,
    }
}

/// The least key of a table, in the order of bytes, that it may not have.
#[tactic(auto, using(crate::proofs::Texts::keys_view, crate::proofs::LeastKey::least_found), unfolding(crate::proofs::LeastKey::least_with))]
pub fn least_unknown(kind: TableKind, table: &Table) -> Option<&str>
    ensures { option_map (λ s. s.now) result ≡ least_unknown kind (table_view table.now) }
{
    let mut least = None;
    for key in table.keys() {
        if !is_known(kind, key.as_str()) {
            least = Some(lesser(least, key.as_str()));
        }
    }
    least
}

/// The least unknown key of the first table of a parameter that has one.
#[tactic(auto, unfolding(crate::specs::UnknownKeys::first_unknown))]
pub fn first_unknown(items: &[Value]) -> Option<&str>
    ensures { option_map (λ s. s.now) result ≡ first_unknown (items_view items.now) }
{
    for item in items {
        if let Some(table) = item.as_table() {
            if let Some(key) = least_unknown(TableKind::Parameter, table) {
                return Some(key);
            }
        }
    }
    None
}
