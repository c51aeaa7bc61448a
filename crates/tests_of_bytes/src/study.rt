use mls_study::{Statistic, Study, read_study};
use std::alloc::Global;
use std::test::Fail;

fn every_key(alloc: Global) -> Result<Study, Fail> {
    let text =
        "cells = 10\nsteps = 3\ngroups = 5\nranks = 4\nclients = 2\nseed = 42\nsamples = \"i16\"\nfields = [\"u\", \"v-2\"]\nstatistics = [\"sobol\", \"exceed\"]\nthresholds = [-5, 7]\nslots = 6\nsilence = 11\nlives = 8\nparameters = [{name = \"alpha\", low = -3, high = 12}, {name = \"beta_1\", low = 0, high = 0}]\n";
    match read_study(alloc, text.as_bytes()) {
        Ok(study) => Ok(study),
        Err(_) => Err(Fail::from("refused")),
    }
}

#[test]
fn every_key_is_read(rt: HostRuntime) -> Result<(), Fail> {
    let study = every_key(rt.alloc())?;
    assert_eq!(rt; (study.shape().cells(), study.shape().groups()), (10, 5));
    assert_eq!(rt; (study.seed(), study.place("beta_1")), (42, Some(1)));
    assert!(rt; study.named() && study.shows(Statistic::Exceed));
    assert!(rt; !study.shows(Statistic::Power));
    Ok(())
}

#[test]
fn unknown_key_is_printed_without_control_characters(rt: HostRuntime) -> Result<(), Fail> {
    let alloc = rt.alloc();
    let text =
        "cells = 1\nsteps = 1\ngroups = 1\n\"a\\tb\" = 1\nparameters = [{name = \"x\", low = 0, high = 0}]\n";
    match read_study(alloc, text.as_bytes()) {
        Ok(_) => return Err(Fail::from("read")),
        Err(fault) => assert_eq!(rt;
            format!(in alloc; "{fault}")?.as_str(),
            "study: unknown key a?b"
        ),
    }
    Ok(())
}
