//! Why bytes are no study.

ghost use Rattle.std.specs.Prelude.{◌≡◌, IfOk};
ghost use Rattle.mls_study.specs.declared.fault.StudyFault.TheVariants.{Memory};

use mls_model::studies::{Key, Product};
use std::alloc::{AllocError, AllocFailed, Global};
use std::fmt;
use std::marker::Model;
use thiserror::Error;

/// A key that stands in a study file.
#[derive(Debug, Drop)]
pub struct Name {
    text: String,
}

impl Model for Name {
    ghost use Rattle.std.specs.Prelude.{List, ℕ, string_bytes};

    ghost Value = { List ℕ };

    ghost view = { λ n. string_bytes n.text };
}

impl Name {
    /// A copy of the text.
    pub fn new(alloc: Global, text: &str) -> Result<Name, AllocError>
        ensures { IfOk result (λ name. name ≡ text.now) }
    {
        let text = String::from_str(alloc, text)?;
        Ok(Name { text })
    }

    /// The key as it stands in the file.
    pub fn as_str(&self) -> &str
        ensures { result.now ≡ self.now }
    {
        self.text.as_str()
    }
}

/// The text of a name has `?` for each control character.
impl fmt::Display for Name {
    fn fmt<W: fmt::Write>(&self, f: &mut fmt::Formatter<W>) -> fmt::Result {
        for c in self.as_str().chars() {
            f.write_char(if c < ' ' || c == '\x7f' { '?' } else { c })?;
        }
        Ok(())
    }
}

/// A known key, to be printed as in a study file.
#[derive(Clone, Copy)]
struct KeyText(Key);

impl fmt::Display for KeyText {
    fn fmt<W: fmt::Write>(&self, f: &mut fmt::Formatter<W>) -> fmt::Result {
        match self.0 {
            Key::Cells => f.write_str("cells"),
            Key::Steps => f.write_str("steps"),
            Key::Groups => f.write_str("groups"),
            Key::Ranks => f.write_str("ranks"),
            Key::Clients => f.write_str("clients"),
            Key::Seed => f.write_str("seed"),
            Key::Samples => f.write_str("samples"),
            Key::Fields => f.write_str("fields"),
            Key::Statistics => f.write_str("statistics"),
            Key::Thresholds => f.write_str("thresholds"),
            Key::Slots => f.write_str("slots"),
            Key::Silence => f.write_str("silence"),
            Key::Lives => f.write_str("lives"),
            Key::Parameters => f.write_str("parameters"),
            Key::ParamName { place } => write!(f, "parameters.{place}.name"),
            Key::ParamLow { place } => write!(f, "parameters.{place}.low"),
            Key::ParamHigh { place } => write!(f, "parameters.{place}.high"),
        }
    }
}

/// A product of a study's numbers, to be printed.
#[derive(Clone, Copy)]
struct ProductText(Product);

impl fmt::Display for ProductText {
    fn fmt<W: fmt::Write>(&self, f: &mut fmt::Formatter<W>) -> fmt::Result {
        f.write_str(match self.0 {
            Product::CellsSteps => "cells*steps",
            Product::GroupsStepsRanks => "groups*steps*ranks",
        })
    }
}

/// The first fault of bytes that are no study, or want of memory.
#[derive(Debug, Drop, Error)]
pub enum StudyFault {
    /// The bytes are no TOML document.
    #[error("study: not TOML")]
    NotToml,
    /// A needed key is absent.
    #[error("study: missing {}", KeyText(*.key))]
    Missing { key: Key },
    /// The key's value, or an entry of its array, has another kind.
    #[error("study: wrong kind {}", KeyText(*.key))]
    Kind { key: Key },
    /// The key's value is out of its range.
    #[error("study: out of range {}", KeyText(*.key))]
    Range { key: Key },
    /// The name of the parameter at this place, counted from 0, stands at an earlier place.
    #[error("study: duplicate name at {place}")]
    Duplicate { place: u32 },
    /// The file has a key that no study has.
    #[error("study: unknown key {key}")]
    Extra { key: Name },
    /// A product of the numbers is too large.
    #[error("study: too large {}", ProductText(*.which))]
    Product { which: Product },
    #[error("out of memory")]
    Memory,
}

impl From<AllocError> for StudyFault {
    ghost from_gives = { λ _ e. e ≡ Memory };

    fn from(_e: AllocError) -> StudyFault {
        StudyFault::Memory
    }
}

impl<T: Drop> From<AllocFailed<T>> for StudyFault {
    ghost from_gives = { λ _ e. e ≡ Memory };

    fn from(_e: AllocFailed<T>) -> StudyFault {
        StudyFault::Memory
    }
}
