//! The Sobol lines of a cell.

ghost use Rattle.std.specs.Prelude.{◌≡◌, ◌+◌, ◌≤◌, ◌++◌, length, ℤ, pos, negsuc, ◌-ℤ◌, ◌≤ℤ◌, IfSome};
ghost use Rattle.std.specs.Option.{option_map};
ghost use Rattle.mls_model.specs.CellSums.{CellSums};
ghost use Rattle.mls_model.specs.ResultText.{index_words};
ghost use Rattle.mls_model.specs.SumsText.{sums_indices};
ghost use Rattle.mls_cov.specs.Standing.{parameters_of};
ghost use Rattle.mls_field.specs.Kept.{HasProducts};
ghost use Rattle.mls_result.specs.Words.{sobol_start, indices_said, parts_said, parameter_rest, parameter_words, first_of, total_of, AreParts};
ghost use Rattle.mls_text.specs.Writing.{WritesTo};

use mls_base::faults::Failed;
use mls_base::outside::Sink;
use mls_cov::{IndexParts, Martinez};
use mls_num::{Digits, put_millionths, rho6};
use mls_study::Study;
use mls_text::{Line, put_bytes};

/// The first and the total index of a parameter, in millionths.
#[derive(Clone, Copy, Debug)]
struct Indices {
    first: Option<i32>,
    total: Option<i32>,
}

/// 1 less an index.
fn rest_of(index: Option<i32>) -> Option<i32>
    requires low { IfSome index (λ r. negsuc 999999 ≤ℤ r) }
    requires high { IfSome index (λ r. r ≤ℤ pos 1000000) }
    ensures value { result ≡ option_map (λ r. pos 1000000 -ℤ r) index }
    ensures low { IfSome result (λ r. negsuc 1999999 ≤ℤ r) }
    ensures high { IfSome result (λ r. r ≤ℤ pos 2000000) }
{
    match index {
        Some(r) => Some(1_000_000 - r),
        None => None,
    }
}

/// The indices that covariances and variances give.
fn indices_of(parts: &IndexParts) -> Indices
    requires { AreParts parts.now }
    ensures first { result.first ≡ first_of parts.now }
    ensures first_low { IfSome result.first (λ r. negsuc 1999999 ≤ℤ r) }
    ensures first_high { IfSome result.first (λ r. r ≤ℤ pos 2000000) }
    ensures total { result.total ≡ total_of parts.now }
    ensures total_low { IfSome result.total (λ r. negsuc 1999999 ≤ℤ r) }
    ensures total_high { IfSome result.total (λ r. r ≤ℤ pos 2000000) }
{
    let first = rho6(parts.cov_b, parts.var_b, parts.var_c);
    let other = rho6(parts.cov_a, parts.var_a, parts.var_c);
    Indices {
        first,
        total: rest_of(other),
    }
}

/// Takes an index behind a line, a `-` where there is none.
fn add_index(line: &mut Line, index: Option<i32>)
    requires low { IfSome index (λ r. negsuc 1999999 ≤ℤ r) }
    requires high { IfSome index (λ r. r ≤ℤ pos 2000000) }
    requires line { length line.old ≤ 300 }
    ensures text { line.new ≡ line.old ++ index_words index }
    ensures size { length line.new ≤ length line.old + 9 }
{
    match index {
        Some(r) => line.text(put_millionths(&mut Digits::new(), r).as_bytes()),
        None => line.text(b"-"),
    }
}

/// Takes both indices behind a line, each with a blank before it.
#[tactic(auto, using(mls_text::proofs::Writing::pieces), unfolding(crate::specs::Words::indices_said))]
fn add_indices(line: &mut Line, first: Option<i32>, total: Option<i32>)
    requires first_low { IfSome first (λ r. negsuc 1999999 ≤ℤ r) }
    requires first_high { IfSome first (λ r. r ≤ℤ pos 2000000) }
    requires total_low { IfSome total (λ r. negsuc 1999999 ≤ℤ r) }
    requires total_high { IfSome total (λ r. r ≤ℤ pos 2000000) }
    requires line { length line.old ≤ 100 }
    ensures text { line.new ≡ line.old ++ indices_said first total }
    ensures size { length line.new ≤ length line.old + 20 }
{
    line.text(b" ");
    add_index(line, first);
    line.text(b" ");
    add_index(line, total);
}

/// Takes covariances and variances behind a line, each with a blank before it, and the line's end.
fn add_parts(line: &mut Line, parts: &IndexParts)
    requires { length line.old ≤ 150 }
    ensures { let p = parts.now in
        line.new ≡ line.old ++ parts_said p.cov_b p.cov_a p.var_a p.var_b p.var_c }
{
    line.text(b" ");
    line.number(parts.cov_b);
    line.text(b" ");
    line.number(parts.cov_a);
    line.text(b" ");
    line.number(parts.var_a);
    line.text(b" ");
    line.number(parts.var_b);
    line.text(b" ");
    line.number(parts.var_c);
    line.text(b"\n");
}

/// The rest of a Sobol line behind the name: the indices that covariances and variances give, and these.
fn parameter_rest(parts: &IndexParts) -> Line
    requires { AreParts parts.now }
    ensures { result ≡ parameter_rest parts.now }
{
    let indices = indices_of(parts);
    let mut line = Line::new();
    add_indices(&mut line, indices.first, indices.total);
    add_parts(&mut line, parts);
    line
}

/// Writes the first word of a Sobol line.
#[tactic(auto, unfolding(crate::specs::Words::sobol_start))]
fn put_sobol_start<O: Sink>(out: &mut O) -> Result<(), Failed>
    ensures { WritesTo O.told O.faults O.sure out.old out.new result sobol_start }
{
    put_bytes(out, b"sobol ")
}

/// Writes the Sobol line of a parameter.
fn put_parameter<O: Sink>(out: &mut O, name: &str, parts: &IndexParts) -> Result<(), Failed>
    requires { AreParts parts.now }
    ensures { WritesTo O.told O.faults O.sure out.old out.new result (parameter_words name.now parts.now) }
{
    put_sobol_start(out)?;
    put_bytes(out, name.as_bytes())?;
    parameter_rest(parts).put(out)
}

/// Writes the Sobol line of each parameter of a study.
#[tactic(auto, unfolding(mls_model::specs::SumsText::sums_indices))]
pub fn put_sobol_lines<O: Sink>(
    out: &mut O,
    study: &Study,
    parameters: u32,
    sums: &Martinez,
) -> Result<(), Failed>
    requires own { parameters ≡ study.now.sizes.parameters }
    requires same { parameters_of sums.now ≡ study.now.sizes.parameters }
    ensures { (c : CellSums) → HasProducts study.now.sizes.parameters c sums.now →
        WritesTo O.told O.faults O.sure out.old out.new result (sums_indices study.now c) }
{
    study.valid();
    for k in 0..parameters {
        let parts = sums.index(k);
        put_parameter(out, study.name(k), &parts)?;
    }
    Ok(())
}
