//! The keys of a study file, but its parameters.

ghost use Rattle.std.specs.Prelude.{◌≡◌, ℕ, ◌≤◌, ◌<◌, ◌^◌, [], length, map, option_map, string_bytes, IfOk, IfSome, IsTrue, nat_le};
ghost use Rattle.std.specs.List.{list_any, list_all};
ghost use Rattle.toml.specs.View.{view, table_view};
ghost use Rattle.mls_model.specs.Numbers.{same_bytes};
ghost use Rattle.mls_model.specs.Studies.{is_name_byte, is_name, are_distinct, is_same_statistic, each_once, rises};
ghost use Rattle.mls_base.specs.Ranges.{AreThresholds};
ghost use Rattle.mls_study.specs.Faults.{Gives};
ghost use Rattle.mls_study.specs.StudyFile.{seed_in, samples_in, are_field_names, fields_in, statistic_of, statistics_from, are_statistics, statistics_in, is_value, shift, are_thresholds, thresholds_in};

use crate::fault::StudyFault;
use crate::values::{integer, integers, strings};
use mls_base::limits::{MOST_FIELDS, MOST_THRESHOLDS};
use mls_base::shape::is_rising;
use mls_model::studies::{Key, Statistic};
use std::alloc::{AllocError, Global};
use toml::Value;

/// The sizes that a study file gives first.
#[derive(Clone, Copy)]
pub struct Counts {
    pub cells: u32,
    pub steps: u32,
    pub groups: u32,
    pub ranks: u32,
    pub clients: u32,
}

/// What a study file says of seed, samples, fields, statistics and thresholds.
#[derive(Drop)]
pub struct Choices {
    pub seed: u64,
    pub signed: bool,
    pub field_names: Option<Vec<String>>,
    pub statistics: Vec<Statistic>,
    /// Shifted values.
    pub thresholds: Vec<u16>,
}

/// How groups are launched.
#[derive(Clone, Copy)]
pub struct Launch {
    pub slots: u32,
    pub silence: u32,
    pub lives: u32,
}

/// The value of the key `seed`.
#[tactic(auto, unfolding(crate::specs::StudyFile::seed_in))]
pub fn seed(value: &Value) -> Result<u64, StudyFault>
    ensures exact { result ≡ seed_in (view value.now) }
    ensures bound { IfOk result (λ seed. seed < 2 ^ 63) }
{
    let number = integer(value, Key::Seed, 0, i64::MAX)?;
    Ok(number as u64)
}

/// Whether the key `samples` says that samples stand for signed values.
#[tactic(auto, unfolding(crate::specs::StudyFile::samples_in))]
pub fn samples(value: &Value) -> Result<bool, StudyFault>
    ensures { result ≡ samples_in (view value.now) }
{
    let text = value
        .as_str()
        .ok_or(StudyFault::Kind { key: Key::Samples })?;
    if text == "u16" {
        Ok(false)
    } else if text == "i16" {
        Ok(true)
    } else {
        Err(StudyFault::Range { key: Key::Samples })
    }
}

fn is_name_char(b: u8) -> bool
    ensures { result ≡ is_name_byte b }
{
    (b'A' <= b && b <= b'Z')
        || (b'a' <= b && b <= b'z')
        || (b'0' <= b && b <= b'9')
        || b == b'_'
        || b == b'-'
}

fn are_name_chars(text: &[u8]) -> bool
    ensures { result ≡ list_all is_name_byte text.now }
{
    text.iter().all(|b| is_name_char(*b))
}

/// Whether a text is 1 to 32 ASCII letters, digits, `_` and `-`.
pub fn is_name_text(text: &str) -> bool
    ensures { result ≡ is_name text.now }
{
    1 <= text.len() && text.len() <= 32 && are_name_chars(text.as_bytes())
}

fn has_text(texts: &[String], text: &str) -> bool
    ensures { result ≡ list_any (same_bytes text.now) (map string_bytes texts.now) }
{
    for other in texts {
        if other.as_str() == text {
            return true;
        }
    }
    false
}

/// Whether no two texts are the same.
fn differ(texts: &[String]) -> bool
    ensures { result ≡ are_distinct (map string_bytes texts.now) }
{
    for (i, text) in texts.iter().enumerate() {
        if has_text(&texts[i + 1..], text.as_str()) {
            return false;
        }
    }
    true
}

fn all_are_names(texts: &[String]) -> bool
    ensures { result ≡ list_all is_name (map string_bytes texts.now) }
{
    for text in texts {
        if !is_name_text(text.as_str()) {
            return false;
        }
    }
    true
}

fn are_names(texts: &[String]) -> bool
    ensures { result ≡ are_field_names (map string_bytes texts.now) }
{
    1 <= texts.len() && texts.len() <= MOST_FIELDS as usize && all_are_names(texts) && differ(texts)
}

/// The names of the key `fields`.
#[tactic(auto, unfolding(crate::specs::StudyFile::fields_in))]
pub fn fields(alloc: Global, value: &Value) -> Result<Option<Vec<String>>, StudyFault>
    ensures exact { Gives (λ o. option_map (λ v. map string_bytes v.items) o) result (fields_in (view value.now)) }
    ensures named { IfOk result (λ o. IfSome o (λ v. IsTrue (are_field_names (map string_bytes v.items)))) }
{
    let items = value
        .as_array()
        .ok_or(StudyFault::Kind { key: Key::Fields })?;
    let names = strings(alloc, items, Key::Fields)?;
    if are_names(&names) {
        Ok(Some(names))
    } else {
        Err(StudyFault::Range { key: Key::Fields })
    }
}

#[tactic(auto, unfolding(crate::specs::StudyFile::statistic_of))]
fn statistic(text: &str) -> Option<Statistic>
    ensures { result ≡ statistic_of text.now }
{
    if text == "power" {
        Some(Statistic::Power)
    } else if text == "extrema" {
        Some(Statistic::Extrema)
    } else if text == "exceed" {
        Some(Statistic::Exceed)
    } else if text == "sobol" {
        Some(Statistic::Sobol)
    } else {
        None
    }
}

/// The statistics of these texts, where each is one.
#[tactic(auto, unfolding(crate::specs::StudyFile::statistics_from))]
fn statistics_of(alloc: Global, texts: &[String]) -> Result<Option<Vec<Statistic>>, AllocError>
    ensures { IfOk result (λ o. option_map (λ v. v.items) o ≡ statistics_from [] (map string_bytes texts.now)) }
{
    let mut found = Vec::new(alloc);
    for text in texts {
        match statistic(text.as_str()) {
            Some(statistic) => found.push(statistic)?,
            None => return Ok(None),
        }
    }
    Ok(Some(found))
}

/// Whether a statistic stands in a list.
pub fn has_statistic(list: &[Statistic], statistic: Statistic) -> bool
    ensures { result ≡ list_any (is_same_statistic statistic) list.now }
{
    list.iter().any(|other| statistic == *other)
}

fn stand_once(list: &[Statistic]) -> bool
    ensures { result ≡ each_once list.now }
{
    for (i, statistic) in list.iter().enumerate() {
        if has_statistic(&list[i + 1..], *statistic) {
            return false;
        }
    }
    true
}

fn are_lawful(list: &[Statistic]) -> bool
    ensures { result ≡ are_statistics list.now }
{
    1 <= list.len() && list.len() <= 4 && stand_once(list)
}

/// The statistics of the key `statistics`.
#[tactic(auto, unfolding(crate::specs::StudyFile::statistics_in))]
pub fn statistics(alloc: Global, value: &Value) -> Result<Vec<Statistic>, StudyFault>
    ensures exact { Gives (λ v. v.items) result (statistics_in (view value.now)) }
    ensures lawful { IfOk result (λ v. IsTrue (are_statistics v.items)) }
{
    let items = value.as_array().ok_or(StudyFault::Kind {
        key: Key::Statistics,
    })?;
    let texts = strings(alloc, items, Key::Statistics)?;
    let found = statistics_of(alloc, &texts)?.ok_or(StudyFault::Range {
        key: Key::Statistics,
    })?;
    if are_lawful(&found) {
        Ok(found)
    } else {
        Err(StudyFault::Range {
            key: Key::Statistics,
        })
    }
}

fn is_in_range(signed: bool, value: i64) -> bool
    ensures { result ≡ is_value signed value }
{
    if signed {
        -32768 <= value && value <= 32767
    } else {
        0 <= value && value <= 65535
    }
}

fn are_in_range(signed: bool, values: &[i64]) -> bool
    ensures { result ≡ list_all (is_value signed) values.now }
{
    values.iter().all(|value| is_in_range(signed, *value))
}

fn shifted_value(signed: bool, value: i64) -> u16
    requires { IsTrue (is_value signed value) }
    ensures { result ≡ shift signed value }
{
    if signed {
        (value + 32768) as u16
    } else {
        value as u16
    }
}

fn shifted_values(alloc: Global, signed: bool, values: &[i64]) -> Result<Vec<u16>, AllocError>
    requires { IsTrue (list_all (is_value signed) values.now) }
    ensures { IfOk result (λ v. v.items ≡ map (shift signed) values.now) }
{
    let mut shifted = Vec::new(alloc);
    for value in values {
        shifted.push(shifted_value(signed, *value))?;
    }
    Ok(shifted)
}

/// The thresholds of the key `thresholds`, as shifted values.
#[tactic(auto, unfolding(crate::specs::StudyFile::thresholds_in))]
pub fn thresholds(alloc: Global, signed: bool, value: &Value) -> Result<Vec<u16>, StudyFault>
    ensures exact { Gives (λ v. v.items) result (thresholds_in signed (view value.now)) }
    ensures ranged { IfOk result (λ v. AreThresholds v.items) }
{
    let items = value.as_array().ok_or(StudyFault::Kind {
        key: Key::Thresholds,
    })?;
    let values = integers(alloc, items, Key::Thresholds)?;
    if values.len() > MOST_THRESHOLDS as usize || !are_in_range(signed, &values) {
        return Err(StudyFault::Range {
            key: Key::Thresholds,
        });
    }
    let shifted = shifted_values(alloc, signed, &values)?;
    if is_rising(&shifted) {
        Ok(shifted)
    } else {
        Err(StudyFault::Range {
            key: Key::Thresholds,
        })
    }
}
