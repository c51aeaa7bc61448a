//! The parameters' tables, and the keys that no study file has.

ghost use Rattle.std.specs.Prelude.{codes, ◌≡◌, ℕ, ◌≤◌, ◌<◌, [], length, map, option_map, string_bytes, pos, negsuc, ◌≤ℤ◌, ◌-ℤ◌, nat_le, ◌&&◌, IfOk, IsTrue};
ghost use Rattle.mls_model.specs.Studies.{is_name};
ghost use Rattle.toml.specs.Data.{get, as_table};
ghost use Rattle.toml.specs.View.{view, items_view, table_view, array_view};
ghost use Rattle.mls_study.specs.Faults.{Gives};
ghost use Rattle.mls_study.specs.StudyFile.{all_tables, item_count, tables_in, name_in, high_in, parameter_in, parameters_from};
ghost use Rattle.mls_study.specs.Parameters.{seen, all_seen};
ghost use Rattle.mls_study.specs.Values.{needed, integer_in};

use crate::fault::StudyFault;
use crate::keys::is_name_text;
use crate::parameter::Parameter;
use crate::values::integer;
use mls_base::limits::MOST_PARAMETERS;
use mls_model::studies::Key;
use std::alloc::Global;
use toml::Value;

fn are_tables(items: &[Value]) -> bool
    ensures { result ≡ all_tables (items_view items.now) }
{
    for item in items {
        if !item.is_table() {
            return false;
        }
    }
    true
}

#[tactic(auto, using(crate::proofs::Texts::item_count_view))]
fn are_enough(items: &[Value]) -> bool
    ensures exact { result ≡ (nat_le 1 (item_count (items_view items.now)) && nat_le (item_count (items_view items.now)) 16) }
    ensures some { IsTrue result → 1 ≤ length items.now }
    ensures few { IsTrue result → length items.now ≤ 16 }
{
    1 <= items.len() && items.len() <= MOST_PARAMETERS as usize
}

/// One to sixteen tables.
#[tactic(auto, unfolding(crate::specs::StudyFile::tables_in))]
pub fn tables(value: &Value) -> Result<&[Value], StudyFault>
    ensures exact { Gives (λ items. items_view items.now) result (tables_in (view value.now)) }
    ensures some { IfOk result (λ items. 1 ≤ length items.now) }
    ensures few { IfOk result (λ items. length items.now ≤ 16) }
{
    let items = value.as_array().ok_or(StudyFault::Kind {
        key: Key::Parameters,
    })?;
    if !are_tables(items) {
        return Err(StudyFault::Kind {
            key: Key::Parameters,
        });
    }
    if are_enough(items) {
        Ok(items)
    } else {
        Err(StudyFault::Range {
            key: Key::Parameters,
        })
    }
}

fn entry<'a>(table: &'a Value, name: &str) -> Option<&'a Value>
    ensures { option_map (λ v. view v.now) result ≡ get name.now (view table.now) }
{
    table.get(name)
}

#[tactic(auto, unfolding(crate::specs::StudyFile::name_in))]
fn name(alloc: Global, value: &Value, key: Key) -> Result<String, StudyFault>
    ensures exact { Gives string_bytes result (name_in key (view value.now)) }
    ensures named { IfOk result (λ name. IsTrue (is_name (string_bytes name))) }
{
    let text = value.as_str().ok_or(StudyFault::Kind { key })?;
    if is_name_text(text) {
        Ok(String::from_str(alloc, text)?)
    } else {
        Err(StudyFault::Range { key })
    }
}

#[tactic(auto, unfolding(crate::specs::StudyFile::high_in))]
fn high(value: &Value, key: Key, low: i64) -> Result<i64, StudyFault>
    requires { negsuc 4294967295 ≤ℤ low }
    ensures exact { result ≡ high_in key low (view value.now) }
    ensures ordered { IfOk result (λ high. low ≤ℤ high) }
    ensures high_bound { IfOk result (λ high. high ≤ℤ pos 4294967295) }
    ensures width { IfOk result (λ high. (high -ℤ low) ≤ℤ pos 4294967295) }
{
    let number = integer(value, key, low, 4294967295)?;
    if number - low <= 4294967295 {
        Ok(number)
    } else {
        Err(StudyFault::Range { key })
    }
}

fn needed_name(alloc: Global, table: &Value, key: Key) -> Result<String, StudyFault>
    ensures exact { Gives string_bytes result (needed key (name_in key) (get (codes "name") (view table.now))) }
    ensures named { IfOk result (λ name. IsTrue (is_name (string_bytes name))) }
{
    let value = entry(table, "name").ok_or(StudyFault::Missing { key })?;
    name(alloc, value, key)
}

fn needed_low(table: &Value, key: Key) -> Result<i64, StudyFault>
    ensures exact { result ≡ needed key (integer_in key (negsuc 4294967295) (pos 4294967295)) (get (codes "low") (view table.now)) }
    ensures low_bound { IfOk result (λ low. negsuc 4294967295 ≤ℤ low) }
{
    let value = entry(table, "low").ok_or(StudyFault::Missing { key })?;
    integer(value, key, -4294967296, 4294967295)
}

fn needed_high(table: &Value, key: Key, low: i64) -> Result<i64, StudyFault>
    requires { negsuc 4294967295 ≤ℤ low }
    ensures exact { result ≡ needed key (high_in key low) (get (codes "high") (view table.now)) }
    ensures ordered { IfOk result (λ high. low ≤ℤ high) }
    ensures high_bound { IfOk result (λ high. high ≤ℤ pos 4294967295) }
    ensures width { IfOk result (λ high. (high -ℤ low) ≤ℤ pos 4294967295) }
{
    let value = entry(table, "high").ok_or(StudyFault::Missing { key })?;
    high(value, key, low)
}

/// The parameter of a table, at its place.
#[tactic(auto, unfolding(crate::specs::StudyFile::parameter_in))]
pub fn parameter(alloc: Global, place: u32, table: &Value) -> Result<Parameter, StudyFault>
    ensures { Gives seen result (parameter_in place (view table.now)) }
{
    let name = needed_name(alloc, table, Key::ParamName { place })?;
    let low = needed_low(table, Key::ParamLow { place })?;
    let high = needed_high(table, Key::ParamHigh { place }, low)?;
    Ok(Parameter { name, low, high })
}

/// The parameters of the tables.
#[tactic(auto, unfolding(crate::specs::StudyFile::parameters_from))]
pub fn parameters(alloc: Global, items: &[Value]) -> Result<Vec<Parameter>, StudyFault>
    requires { length items.now ≤ 16 }
    ensures exact { Gives (λ v. all_seen v.items) result (parameters_from [] (items_view items.now)) }
    ensures len { IfOk result (λ v. length v.items ≡ length items.now) }
{
    let mut found = Vec::new(alloc);
    for (place, item) in items.iter().enumerate() {
        found.push(parameter(alloc, place as u32, item)?)?;
    }
    Ok(found)
}
