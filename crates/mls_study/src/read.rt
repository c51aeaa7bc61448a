//! The reading of a study file.

ghost use Rattle.std.specs.Prelude.{◌≡◌, ℕ, ◌≤◌, ◌<◌, ◌^◌, List, [], None, false, true, length, slice_index, map, option_map, string_bytes, codes, IfOk, IfErr, IfSome, IsTrue, Ok, Err, nat_le, min};
ghost use Rattle.std.specs.List.{list_all};
ghost use Rattle.indexmap.specs.IndexMap.{get_by_text};
ghost use Rattle.toml.specs.Data.{get_member};
ghost use Rattle.toml.specs.View.{view, table_view, items_view};
ghost use Rattle.mls_base.specs.Shapes.{padded};
ghost use Rattle.mls_model.specs.Studies.{AreSizes, IsStudy, rises};
ghost use Rattle.mls_study.specs.Choices.{chosen, field_count};
ghost use Rattle.mls_base.specs.Ranges.{AreThresholds};
ghost use Rattle.mls_study.specs.Faults.{Gives, IsMemory};
ghost use Rattle.mls_study.specs.Names.{place_in, duplicate_from};
ghost use Rattle.mls_study.specs.Parameters.{all_seen};
ghost use Rattle.mls_study.specs.Ranges.{AreCounts, AreChoices, AreLaunch};
ghost use Rattle.mls_study.specs.StudyFile.{document_of, counts_of, seed_in, samples_in, are_field_names, fields_in, are_statistics, statistics_in, all_statistics, thresholds_in, choices_of, launch_of, tables_in, parameters_from, refuse, sizes_with, whole, study_with_parameters, study_in, study_of};
ghost use Rattle.mls_study.specs.Values.{needed, given_or};
ghost use Rattle.mls_model.specs.declared.studies.Key.TheVariants as Key;
ghost use Rattle.mls_study.specs.declared.fault.StudyFault.TheVariants.{Extra};

use crate::fault::{Name, StudyFault};
use crate::keys::{Choices, Counts, Launch, fields, samples, seed, statistics, thresholds};
use crate::parameter::Parameter;
use crate::parameter_places::places;
use crate::study::Study;
use crate::tables::{parameters, tables};
use crate::unknown_keys::{TableKind, first_unknown, least_unknown};
use crate::values::{member, needed_number, number_or};
use indexmap::IndexMap;
use mls_base::limits::{
    MOST_CELLS, MOST_GROUPS, MOST_LIVES, MOST_MARKS, MOST_SILENCE, MOST_SLOTS, MOST_STEPS,
    MOST_WORKERS,
};
use mls_base::numbers::Numbers;
use mls_base::shape::Shape;
use mls_model::studies::{Key, Product, Statistic};
use std::alloc::Global;
use toml::{Table, Value};

/// The table that the bytes write.
#[tactic(auto, using(crate::proofs::Texts::utf8_laws), unfolding(crate::specs::StudyFile::document_of))]
fn document(alloc: Global, bytes: &[u8]) -> Result<Table, StudyFault>
    ensures { Gives table_view result (document_of bytes.now) }
{
    let text = std::str::from_utf8(bytes).map_err(|_| StudyFault::NotToml)?;
    match toml::table_from_str(alloc, text) {
        Ok(table) => Ok(table),
        Err(error) if error.is_memory() => Err(StudyFault::Memory),
        Err(_) => Err(StudyFault::NotToml),
    }
}

#[tactic(auto, unfolding(crate::specs::StudyFile::counts_of))]
fn counts(table: &Table) -> Result<Counts, StudyFault>
    ensures exact { result ≡ counts_of (table_view table.now) }
    ensures ranged { IfOk result AreCounts }
{
    let cells = needed_number(table, "cells", Key::Cells, 1, MOST_CELLS)?;
    let steps = needed_number(table, "steps", Key::Steps, 1, MOST_STEPS)?;
    let groups = needed_number(table, "groups", Key::Groups, 1, MOST_GROUPS)?;
    let workers = cells.min(MOST_WORKERS);
    let ranks = number_or(table, "ranks", Key::Ranks, 1, workers, 1)?;
    let clients = number_or(table, "clients", Key::Clients, 1, workers, 1)?;
    Ok(Counts {
        cells,
        steps,
        groups,
        ranks,
        clients,
    })
}

fn seed_or_zero(table: &Table) -> Result<u64, StudyFault>
    ensures exact { result ≡ given_or 0 seed_in (get_member (codes "seed") (table_view table.now)) }
    ensures bound { IfOk result (λ seed. seed < 2 ^ 63) }
{
    match member(table, "seed") {
        Some(value) => seed(value),
        None => Ok(0),
    }
}

fn signed_or_not(table: &Table) -> Result<bool, StudyFault>
    ensures { result ≡ given_or false samples_in (get_member (codes "samples") (table_view table.now)) }
{
    match member(table, "samples") {
        Some(value) => samples(value),
        None => Ok(false),
    }
}

fn fields_or_none(alloc: Global, table: &Table) -> Result<Option<Vec<String>>, StudyFault>
    ensures exact { Gives (λ o. option_map (λ v. map string_bytes v.items) o) result (given_or None fields_in (get_member (codes "fields") (table_view table.now))) }
    ensures named { IfOk result (λ o. IfSome o (λ v. IsTrue (are_field_names (map string_bytes v.items)))) }
{
    match member(table, "fields") {
        Some(value) => fields(alloc, value),
        None => Ok(None),
    }
}

fn every_statistic(alloc: Global) -> Result<Vec<Statistic>, StudyFault>
    ensures exact { Gives (λ v. v.items) result (Ok all_statistics) }
    ensures lawful { IfOk result (λ v. IsTrue (are_statistics v.items)) }
{
    let all = [
        Statistic::Power,
        Statistic::Extrema,
        Statistic::Exceed,
        Statistic::Sobol,
    ];
    Ok(Vec::from_slice(alloc, &all)?)
}

fn statistics_or_all(alloc: Global, table: &Table) -> Result<Vec<Statistic>, StudyFault>
    ensures exact { Gives (λ v. v.items) result (given_or all_statistics statistics_in (get_member (codes "statistics") (table_view table.now))) }
    ensures lawful { IfOk result (λ v. IsTrue (are_statistics v.items)) }
{
    match member(table, "statistics") {
        Some(value) => statistics(alloc, value),
        None => every_statistic(alloc),
    }
}

fn thresholds_or_none(alloc: Global, signed: bool, table: &Table) -> Result<Vec<u16>, StudyFault>
    ensures exact { Gives (λ v. v.items) result (given_or [] (thresholds_in signed) (get_member (codes "thresholds") (table_view table.now))) }
    ensures ranged { IfOk result (λ v. AreThresholds v.items) }
{
    match member(table, "thresholds") {
        Some(value) => thresholds(alloc, signed, value),
        None => Ok(Vec::new(alloc)),
    }
}

#[tactic(auto, unfolding(crate::specs::StudyFile::choices_of))]
fn choices(alloc: Global, table: &Table) -> Result<Choices, StudyFault>
    ensures exact { Gives chosen result (choices_of (table_view table.now)) }
    ensures ranged { IfOk result (λ c. AreChoices (chosen c)) }
{
    let seed = seed_or_zero(table)?;
    let signed = signed_or_not(table)?;
    let field_names = fields_or_none(alloc, table)?;
    let statistics = statistics_or_all(alloc, table)?;
    let thresholds = thresholds_or_none(alloc, signed, table)?;
    Ok(Choices {
        seed,
        signed,
        field_names,
        statistics,
        thresholds,
    })
}

#[tactic(auto, unfolding(crate::specs::StudyFile::launch_of))]
fn launch(table: &Table) -> Result<Launch, StudyFault>
    ensures exact { result ≡ launch_of (table_view table.now) }
    ensures ranged { IfOk result AreLaunch }
{
    let slots = number_or(table, "slots", Key::Slots, 1, MOST_SLOTS, 1)?;
    let silence = number_or(table, "silence", Key::Silence, 1, MOST_SILENCE, 300)?;
    let lives = number_or(table, "lives", Key::Lives, 1, MOST_LIVES, 3)?;
    Ok(Launch {
        slots,
        silence,
        lives,
    })
}

fn parameter_tables(table: &Table) -> Result<&[Value], StudyFault>
    ensures exact { Gives (λ items. items_view items.now) result (needed Key.Parameters tables_in (get_member (codes "parameters") (table_view table.now))) }
    ensures some { IfOk result (λ items. 1 ≤ length items.now) }
    ensures few { IfOk result (λ items. length items.now ≤ 16) }
{
    let value = member(table, "parameters").ok_or(StudyFault::Missing {
        key: Key::Parameters,
    })?;
    tables(value)
}

fn refuse_key(alloc: Global, key: Option<&str>) -> Result<(), StudyFault>
    ensures { Gives (λ _. tt) result (refuse Extra (option_map (λ s. s.now) key.entry)) }
{
    match key {
        None => Ok(()),
        Some(text) => Err(StudyFault::Extra {
            key: Name::new(alloc, text)?,
        }),
    }
}

fn entry(list: &[u16], i: usize) -> u16
    ensures { result ≡ slice_index list.now i }
{
    if i < list.len() { list[i] } else { 0 }
}

/// The thresholds in eight places, and 0 behind them.
#[tactic(auto, using(crate::proofs::Wholes::eight_is_padded))]
fn eight(list: &[u16]) -> [u16; 8]
    requires { length list.now ≤ 8 }
    ensures { result ≡ padded list.now }
{
    [
        entry(list, 0),
        entry(list, 1),
        entry(list, 2),
        entry(list, 3),
        entry(list, 4),
        entry(list, 5),
        entry(list, 6),
        entry(list, 7),
    ]
}

fn field_number(choices: &Choices) -> u32
    requires { AreChoices (chosen choices.now) }
    ensures value { result ≡ field_count (chosen choices.now) }
    ensures some { 1 ≤ result }
    ensures few { result ≤ 4 }
{
    match &choices.field_names {
        Some(names) => names.len() as u32,
        None => 1,
    }
}

fn shape(counts: Counts, choices: &Choices, launch: Launch, parameters: u32) -> Shape
    requires choices { AreChoices (chosen choices.now) }
    requires sizes { AreSizes (sizes_with counts (chosen choices.now) launch parameters) }
    ensures { result ≡ sizes_with counts (chosen choices.now) launch parameters }
{
    let thresholds: &[u16] = &choices.thresholds;
    let numbers = Numbers {
        cells: counts.cells,
        steps: counts.steps,
        groups: counts.groups,
        parameters,
        ranks: counts.ranks,
        clients: counts.clients,
        slots: launch.slots,
        silence: launch.silence,
        lives: launch.lives,
        thresholds: thresholds.len() as u32,
        threshold: eight(thresholds),
        signed: choices.signed,
        fields: field_number(choices),
    };
    Shape::of(&numbers).unwrap()
}

/// The study of these parts, where no product of its numbers is too large.
#[tactic(auto, unfolding(crate::specs::StudyFile::whole))]
fn study(
    counts: Counts,
    choices: Choices,
    launch: Launch,
    parameters: Vec<Parameter>,
    places: IndexMap<String, u32>,
) -> Result<Study, StudyFault>
    requires counts { AreCounts counts }
    requires choices { AreChoices (chosen choices) }
    requires launch { AreLaunch launch }
    requires some { 1 ≤ length parameters.items }
    requires few { length parameters.items ≤ 16 }
    requires distinct { duplicate_from [] (all_seen parameters.items) ≡ None }
    requires placed { (name : List ℕ) → get_by_text places name ≡ place_in name (all_seen parameters.items) }
    ensures { result ≡ whole counts (chosen choices) launch (all_seen parameters.items) }
{
    let planes = counts.steps as u64 * field_number(&choices) as u64;
    if counts.cells as u64 * planes > MOST_CELLS as u64 {
        return Err(StudyFault::Product {
            which: Product::CellsSteps,
        });
    }
    if counts.groups as u64 * planes * counts.ranks as u64 > MOST_MARKS {
        return Err(StudyFault::Product {
            which: Product::GroupsStepsRanks,
        });
    }
    let shape = shape(counts, &choices, launch, parameters.len() as u32);
    Ok(Study {
        shape,
        seed: choices.seed,
        field_names: choices.field_names,
        statistics: choices.statistics,
        parameters,
        places,
    })
}

/// The study of a table whose counts, choices and launch are these.
#[tactic(auto, unfolding(crate::specs::StudyFile::study_with_parameters))]
fn study_over(
    alloc: Global,
    table: &Table,
    counts: Counts,
    choices: Choices,
    launch: Launch,
) -> Result<Study, StudyFault>
    requires counts { AreCounts counts }
    requires choices { AreChoices (chosen choices) }
    requires launch { AreLaunch launch }
    ensures { Gives (λ study. study) result (study_with_parameters counts (chosen choices) launch (table_view table.now)) }
{
    let tables = parameter_tables(table)?;
    let parameters = parameters(alloc, tables)?;
    let places = places(alloc, &parameters)?;
    refuse_key(alloc, least_unknown(TableKind::Study, table))?;
    refuse_key(alloc, first_unknown(tables))?;
    study(counts, choices, launch, parameters, places)
}

/// The study that the table writes.
#[tactic(auto, unfolding(crate::specs::StudyFile::study_in))]
fn study_from(alloc: Global, table: &Table) -> Result<Study, StudyFault>
    ensures { Gives (λ study. study) result (study_in (table_view table.now)) }
{
    let counts = counts(table)?;
    let choices = choices(alloc, table)?;
    let launch = launch(table)?;
    study_over(alloc, table, counts, choices, launch)
}

/// The study that the bytes spell. Where they spell none, the first fault in the order of a study file; or want
/// of memory.
#[tactic(auto, unfolding(crate::specs::StudyFile::study_of))]
pub fn read_study(alloc: Global, bytes: &[u8]) -> Result<Study, StudyFault>
    ensures ok { IfOk result (λ study. study_of bytes.now ≡ Ok study) }
    ensures fault { IfErr result (λ f. ¬ IsMemory f → study_of bytes.now ≡ Err f) }
    ensures valid { IfOk result IsStudy }
{
    let table = document(alloc, bytes)?;
    let study = study_from(alloc, &table)?;
    study.valid();
    Ok(study)
}
