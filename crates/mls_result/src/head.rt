//! The head of the text, and the first line of a cell.

ghost use Rattle.std.specs.Prelude.{◌≡◌, ◌+◌, ◌<◌, ◌≤◌, ◌++◌, length};
ghost use Rattle.mls_model.specs.ResultText.{study_line, step_line, fields_words, field_words};
ghost use Rattle.mls_text.specs.Writing.{WritesTo};
ghost use Rattle.mls_result.specs.Words.{field_start, fields_said, title_words};

use crate::lines::{cell_words, step_start, study_start};
use mls_base::faults::Failed;
use mls_base::outside::Sink;
use mls_study::Study;
use mls_text::{Line, put_bytes};

/// Takes the number of fields behind a line.
#[tactic(auto, using(mls_text::proofs::Writing::pieces), unfolding(crate::specs::Words::fields_said))]
fn add_fields_said(line: &mut Line, fields: u32)
    requires { length line.old ≤ 300 }
    ensures text { line.new ≡ line.old ++ fields_said fields }
    ensures size { length line.new ≤ length line.old + 18 }
{
    line.text(b" fields ");
    line.number(fields);
}

/// Takes the number of fields where the study names them.
fn add_fields(line: &mut Line, study: &Study)
    requires { length line.old ≤ 300 }
    ensures text { line.new ≡ line.old ++ fields_words study.now }
    ensures size { length line.new ≤ length line.old + 18 }
{
    if study.named() {
        add_fields_said(line, study.shape().fields());
    }
}

/// The study line.
fn study_line(study: &Study) -> Line
    ensures { result ≡ study_line study.now }
{
    let mut line = study_start(&study.shape());
    add_fields(&mut line, study);
    line.text(b"\n");
    line
}

/// Writes the first line.
#[tactic(auto, unfolding(crate::specs::Words::title_words))]
fn put_title<O: Sink>(out: &mut O) -> Result<(), Failed>
    ensures { WritesTo O.told O.faults O.sure out.old out.new result title_words }
{
    put_bytes(out, b"melissa-result 1\n")
}

/// Writes the study line. It takes no memory. After `Failed` a front of it went out.
pub fn put_study<O: Sink>(out: &mut O, study: &Study) -> Result<(), Failed>
    ensures { WritesTo O.told O.faults O.sure out.old out.new result (study_line study.now) }
{
    study_line(study).put(out)
}

/// Writes the title and the study line.
pub fn put_head<O: Sink>(out: &mut O, study: &Study) -> Result<(), Failed>
    ensures { WritesTo O.told O.faults O.sure out.old out.new result (title_words ++ study_line study.now) }
{
    put_title(out)?;
    put_study(out, study)
}

/// Writes the word before the name of a field.
#[tactic(auto, unfolding(crate::specs::Words::field_start))]
fn put_field_start<O: Sink>(out: &mut O) -> Result<(), Failed>
    ensures { WritesTo O.told O.faults O.sure out.old out.new result field_start }
{
    put_bytes(out, b" field ")
}

/// Writes the name of a field with the word before it.
fn put_name<O: Sink>(out: &mut O, name: &str) -> Result<(), Failed>
    ensures { WritesTo O.told O.faults O.sure out.old out.new result (field_start ++ name.now) }
{
    put_field_start(out)?;
    put_bytes(out, name.as_bytes())
}

/// Writes the name of a field where the study names its fields.
fn put_field<O: Sink>(out: &mut O, study: &Study, field: u32) -> Result<(), Failed>
    requires { field < study.now.sizes.fields }
    ensures { WritesTo O.told O.faults O.sure out.old out.new result (field_words study.now field) }
{
    if study.named() {
        return put_name(out, study.field_name(field));
    }
    Ok(())
}

/// Writes the step line of a field and a cell with so many groups. It takes no memory. After `Failed` a front of it
/// went out.
pub fn put_step<O: Sink>(
    out: &mut O,
    study: &Study,
    step: u32,
    field: u32,
    cell: u32,
    groups: u32,
) -> Result<(), Failed>
    requires { field < study.now.sizes.fields }
    ensures { WritesTo O.told O.faults O.sure out.old out.new result (step_line study.now step field cell groups) }
{
    step_start(step).put(out)?;
    put_field(out, study, field)?;
    cell_words(cell, groups).put(out)
}
