//! The design text.

ghost use Rattle.std.specs.Prelude.{◌≡◌, ◌+◌, ◌<◌, ◌≤◌, ◌++◌, length};
ghost use Rattle.mls_model.specs.Designs.{design_line, group_lines, design_text};
ghost use Rattle.mls_text.specs.Writing.{WritesTo};
ghost use Rattle.mls_design.specs.Kept.{design_of};
ghost use Rattle.mls_design.specs.Lines.{line_start, value_words, title_words, end_words, all_lines};

use crate::design::Design;
use mls_base::faults::Failed;
use mls_base::outside::Sink;
use mls_study::Study;
use mls_text::{Line, put_bytes};

/// Takes a value with the blank before it behind a line.
#[tactic(auto, using(mls_text::proofs::Writing::pieces), unfolding(crate::specs::Lines::value_words))]
fn add_value(line: &mut Line, value: i64)
    requires { length line.old ≤ 363 }
    ensures text { line.new ≡ line.old ++ value_words value }
    ensures size { length line.new ≤ length line.old + 21 }
{
    line.text(b" ");
    line.number(value);
}

/// The line that a simulation's values stand behind.
#[tactic(auto, using(mls_text::proofs::Writing::pieces), unfolding(crate::specs::Lines::line_start))]
fn started(group: u32, sim: u32) -> Line
    ensures text { result ≡ line_start group sim }
    ensures size { length result ≤ 31 }
{
    let mut line = Line::new();
    line.text(b"group ");
    line.number(group);
    line.text(b" sim ");
    line.number(sim);
    line
}

/// The line of a simulation.
fn line_of(study: &Study, design: &Design, group: u32, sim: u32) -> Line
    requires made { design.now ≡ design_of study.now }
    requires group_in { group < study.now.sizes.groups }
    ensures { result ≡ design_line study.now group sim }
{
    study.valid();
    let mut line = started(group, sim);
    for parameter in 0..study.shape().parameters() {
        add_value(&mut line, design.value(group, sim, parameter));
    }
    line.text(b"\n");
    line
}

/// Writes the lines of a group.
#[tactic(auto, unfolding(mls_model::specs::Designs::group_lines))]
fn put_group<O: Sink>(
    out: &mut O,
    study: &Study,
    design: &Design,
    group: u32,
    sims: u32,
) -> Result<(), Failed>
    requires made { design.now ≡ design_of study.now }
    requires group_in { group < study.now.sizes.groups }
    requires sims { sims ≡ 2 + study.now.sizes.parameters }
    ensures { WritesTo O.told O.faults O.sure out.old out.new result (group_lines study.now group) }
{
    for sim in 0..sims {
        line_of(study, design, group, sim).put(out)?;
    }
    Ok(())
}

/// Writes the lines of all groups.
#[tactic(auto, unfolding(crate::specs::Lines::all_lines))]
fn put_groups<O: Sink>(
    out: &mut O,
    study: &Study,
    design: &Design,
    groups: u32,
) -> Result<(), Failed>
    requires made { design.now ≡ design_of study.now }
    requires groups { groups ≡ study.now.sizes.groups }
    ensures { WritesTo O.told O.faults O.sure out.old out.new result (all_lines study.now) }
{
    let sims = 2 + study.shape().parameters();
    for group in 0..groups {
        put_group(out, study, design, group, sims)?;
    }
    Ok(())
}

/// Writes the first line.
#[tactic(auto, unfolding(crate::specs::Lines::title_words))]
fn put_title<O: Sink>(out: &mut O) -> Result<(), Failed>
    ensures { WritesTo O.told O.faults O.sure out.old out.new result title_words }
{
    put_bytes(out, b"melissa-design 1\n")
}

/// Writes the last line.
#[tactic(auto, unfolding(crate::specs::Lines::end_words))]
fn put_end<O: Sink>(out: &mut O) -> Result<(), Failed>
    ensures { WritesTo O.told O.faults O.sure out.old out.new result end_words }
{
    put_bytes(out, b"end\n")
}

/// Writes the design text, a line at a time and without memory. After `Failed` a front of it went out; that comes
/// only where the sink takes fewer bytes for sure than the text has.
pub fn write_design<O: Sink>(study: &Study, design: &Design, out: &mut O) -> Result<(), Failed>
    requires { design.now ≡ design_of study.now }
    ensures { WritesTo O.told O.faults O.sure out.old out.new result (design_text study.now) }
{
    put_title(out)?;
    put_groups(out, study, design, study.shape().groups())?;
    put_end(out)
}
