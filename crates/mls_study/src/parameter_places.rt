//! The places of the parameters by their names.

ghost use Rattle.std.specs.Prelude.{◌≡◌, ℕ, ◌≤◌, [], length, List, IfOk};
ghost use Rattle.indexmap.specs.IndexMap.{get_by_text};
ghost use Rattle.mls_study.specs.Faults.{Gives};
ghost use Rattle.mls_study.specs.Names.{place_in, duplicate_from};
ghost use Rattle.mls_study.specs.Parameters.{all_seen};
ghost use Rattle.mls_study.specs.StudyFile.{refuse};
ghost use Rattle.mls_study.specs.declared.fault.StudyFault.TheVariants.{Duplicate};

use crate::fault::StudyFault;
use crate::parameter::Parameter;
use indexmap::IndexMap;
use std::alloc::Global;

/// The map from the parameters' names to their places, where no name stands twice.
#[tactic(auto, unfolding(crate::specs::Names::duplicate_from))]
pub fn places(alloc: Global, parameters: &[Parameter]) -> Result<IndexMap<String, u32>, StudyFault>
    requires { length parameters.now ≤ 16 }
    ensures exact { Gives (λ _. tt) result (refuse Duplicate (duplicate_from [] (all_seen parameters.now))) }
    ensures found { IfOk result (λ m. (name : List ℕ) → get_by_text m name ≡ place_in name (all_seen parameters.now)) }
{
    let mut places = IndexMap::new(alloc);
    for (place, parameter) in parameters.iter().enumerate() {
        let name = parameter.name.as_str();
        if places.contains_key(name) {
            return Err(StudyFault::Duplicate {
                place: place as u32,
            });
        }
        places.insert(String::from_str(alloc, name)?, place as u32)?;
    }
    Ok(places)
}
