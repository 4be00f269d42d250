//! The suite of some of the stanzas that were read.
ghost use Rattle.std.specs.Prelude.{◌≡◌, ◌≤◌, ◌∷◌, ◌++◌, List, ℕ, [], Ok, length, IfOk, IfErr};
ghost use Rattle.std.specs.{Prelude.{OnOk}, Option.{option_or}};
ghost use Rattle.listed.specs.Lists.{In};
ghost use Rattle.stanza_reader.specs.{Blanking.{picked}, Stanzas.{stanzas}};
ghost use Rattle.stanza_reader.specs.declared.stanza.RawStanza.{RawStanza};
ghost use Rattle.repo_model.specs.{Building.{IsBuilt}, Facts.{architecture_of, facts_of}};
ghost use Rattle.repo_model.specs.{Feeding.{IsSuiteOf}, Fields.{HasShortValues}};
ghost use Rattle.repo_model.specs.{FirstFault.{first_fault}, Limits.{most_packages}};
ghost use Rattle.repo_model.specs.{Picking.{next_fault}, Refusals.{Answers, Refuses}};

use crate::building::Building;
use crate::fault::IndexFault;
use crate::reading::is_full;
use crate::suite::Suite;
use stanza_reader::RawStanza;
use std::alloc::Global;

/// The suite of the stanzas whose flags are up, or the first fault among these.
///
/// It is what `read_suite` returns for each text with these stanzas, as one in which the lines of
/// the others were made empty. There is a flag for each stanza, and no value has more than
/// 1,073,741,824 bytes.
pub fn suite_of_picked(
    alloc: Global,
    all: &[RawStanza],
    flags: &[bool],
) -> Result<Suite, IndexFault>
    requires many { length flags.now ≡ length all.now }
    requires short { (stanza : RawStanza) → In stanza all.now → HasShortValues stanza }
    ensures refused { IfErr result (λ fault. (text : List ℕ) →
        stanzas text ≡ Ok (picked flags.now all.now) → Refuses fault (first_fault text)) }
    ensures suite { IfOk result (λ suite. (text : List ℕ) → stanzas text
        ≡ Ok (picked flags.now all.now) → IsSuiteOf text suite.packages suite.home.name) }
{
    let mut building = Building::new(alloc);
    for (place, stanza) in all.iter().enumerate() {
        let is_picked = flags[place];
        if !is_picked {
            continue;
        }
        add_next(alloc, &mut building, stanza)?;
    }
    Ok(building.into_suite())
}

// Appends the package of a stanza. It may find that the stanza is one too many, or the first fault
// of that stanza.
fn add_next(alloc: Global, building: &mut Building, stanza: &RawStanza) -> Result<(), IndexFault>
    requires short { HasShortValues stanza.now }
    requires few { length building.old.packages ≤ most_packages }
    requires built { IsBuilt building.old }
    ensures fault { Answers result
        (next_fault building.old.packages building.old.home.name stanza.now) tt }
    ensures packages { OnOk result (building.new.packages
        ≡ building.old.packages ++ facts_of stanza.now ∷ []) }
    ensures home { OnOk result (building.new.home.name
        ≡ option_or building.old.home.name (architecture_of stanza.now)) }
    ensures few { OnOk result (length building.new.packages ≤ most_packages) }
    ensures built { OnOk result (IsBuilt building.new) }
{
    if is_full(building.packages.as_slice().len()) {
        return Err(IndexFault::TooMany);
    }
    building.add_lent(alloc, stanza)
}
