//! Reads studies from standard input, each ended by a line `---`, and prints for each the numbers that it has or why it
//! is refused. The kept run has the cases of the study's table.
#![tactic(auto)]

use mls_study::{Statistic, Study, read_study};
use std::alloc::Global;
use std::io;

/// A mark for each statistic that is shown.
fn shown(study: &Study, statistic: Statistic) -> u32 {
    if study.shows(statistic) { 1 } else { 0 }
}

/// Prints the numbers of a study, those of its table first.
fn print_study(rt: &HostRuntime, study: &Study) -> io::Result<()> {
    let shape = study.shape();
    println!(rt;
        "cells {} steps {} groups {} ranks {} clients {} seed {}",
        shape.cells(),
        shape.steps(),
        shape.groups(),
        shape.ranks(),
        shape.clients(),
        study.seed()
    )?;
    println!(rt;
        "signed {} fields {} named {} shows {}{}{}{}",
        shape.signed(),
        shape.fields(),
        study.named(),
        shown(study, Statistic::Power),
        shown(study, Statistic::Extrema),
        shown(study, Statistic::Exceed),
        shown(study, Statistic::Sobol)
    )?;
    println!(rt;
        "thresholds {} slots {} silence {} lives {} parameters {}",
        shape.thresholds(),
        shape.slots(),
        shape.silence(),
        shape.lives(),
        shape.parameters()
    )
}

/// Prints what a text is as a study.
fn print_answer(rt: &HostRuntime, alloc: Global, text: &str) -> io::Result<()> {
    match read_study(alloc, text.as_bytes()) {
        Ok(study) => print_study(rt, &study),
        Err(fault) => println!(rt; "{fault}"),
    }
}

fn main(rt: HostRuntime) -> io::Result<()> {
    let alloc = rt.alloc();
    let mut text = String::new(alloc);
    for line in rt.lines(alloc) {
        let line = line?;
        if line.as_str() == "---" {
            print_answer(&rt, alloc, text.as_str())?;
            text.clear();
        } else {
            text.push_str(line.as_str())?;
            text.push('\n')?;
        }
    }
    Ok(())
}
