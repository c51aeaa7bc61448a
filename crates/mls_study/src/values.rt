//! The reading of one key's value, by the kinds and ranges that many keys share.

ghost use Rattle.std.specs.Prelude.{◌≡◌, ◌≤◌, ◌≤ℤ◌, [], map, option_map, string_bytes, IfOk};
ghost use Rattle.toml.specs.Data.{get_member};
ghost use Rattle.toml.specs.View.{view, table_view, items_view};
ghost use Rattle.mls_study.specs.Faults.{Gives};
ghost use Rattle.mls_study.specs.Values.{needed, given_or, integer_in, number_in, strings_from, integers_from};

use crate::fault::StudyFault;
use mls_model::studies::Key;
use std::alloc::Global;
use toml::{Table, Value};

/// The value of a key of a table.
pub fn member<'a>(table: &'a Table, name: &str) -> Option<&'a Value>
    ensures { option_map (λ v. view v.now) result ≡ get_member name.now (table_view table.now) }
{
    table.get(name)
}

/// An integer from `least` to `most`.
#[tactic(auto, unfolding(crate::specs::Values::integer_in))]
pub fn integer(value: &Value, key: Key, least: i64, most: i64) -> Result<i64, StudyFault>
    ensures exact { result ≡ integer_in key least most (view value.now) }
    ensures least { IfOk result (λ z. least ≤ℤ z) }
    ensures most { IfOk result (λ z. z ≤ℤ most) }
{
    let number = value.as_integer().ok_or(StudyFault::Kind { key })?;
    if least <= number && number <= most {
        Ok(number)
    } else {
        Err(StudyFault::Range { key })
    }
}

/// An integer from `least` to `most`, neither negative.
#[tactic(auto, unfolding(crate::specs::Values::number_in))]
pub fn number(value: &Value, key: Key, least: u32, most: u32) -> Result<u32, StudyFault>
    ensures exact { result ≡ number_in key least most (view value.now) }
    ensures least { IfOk result (λ n. least ≤ n) }
    ensures most { IfOk result (λ n. n ≤ most) }
{
    let number = integer(value, key, least as i64, most as i64)?;
    Ok(number as u32)
}

/// The number of a key that a table must have.
pub fn needed_number(
    table: &Table,
    name: &str,
    key: Key,
    least: u32,
    most: u32,
) -> Result<u32, StudyFault>
    ensures exact { result ≡ needed key (number_in key least most) (get_member name.now (table_view table.now)) }
    ensures least { IfOk result (λ n. least ≤ n) }
    ensures most { IfOk result (λ n. n ≤ most) }
{
    let value = member(table, name).ok_or(StudyFault::Missing { key })?;
    number(value, key, least, most)
}

/// The number of a key that a table may have.
pub fn number_or(
    table: &Table,
    name: &str,
    key: Key,
    least: u32,
    most: u32,
    default: u32,
) -> Result<u32, StudyFault>
    requires least { least ≤ default }
    requires most { default ≤ most }
    ensures exact { result ≡ given_or default (number_in key least most) (get_member name.now (table_view table.now)) }
    ensures least { IfOk result (λ n. least ≤ n) }
    ensures most { IfOk result (λ n. n ≤ most) }
{
    match member(table, name) {
        Some(value) => number(value, key, least, most),
        None => Ok(default),
    }
}

/// The strings of an array.
#[tactic(auto, unfolding(crate::specs::Values::strings_from))]
pub fn strings(alloc: Global, items: &[Value], key: Key) -> Result<Vec<String>, StudyFault>
    ensures { Gives (λ v. map string_bytes v.items) result (strings_from key [] (items_view items.now)) }
{
    let mut texts = Vec::new(alloc);
    for item in items {
        let text = item.as_str().ok_or(StudyFault::Kind { key })?;
        texts.push(String::from_str(alloc, text)?)?;
    }
    Ok(texts)
}

/// The integers of an array.
#[tactic(auto, unfolding(crate::specs::Values::integers_from))]
pub fn integers(alloc: Global, items: &[Value], key: Key) -> Result<Vec<i64>, StudyFault>
    ensures { Gives (λ v. v.items) result (integers_from key [] (items_view items.now)) }
{
    let mut numbers = Vec::new(alloc);
    for item in items {
        numbers.push(item.as_integer().ok_or(StudyFault::Kind { key })?)?;
    }
    Ok(numbers)
}
