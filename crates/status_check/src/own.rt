//! The own packages of a status file.
ghost use Rattle.std.specs.Prelude.{◌≡◌, ◌≤◌, length, None, Ok, IfOk, IfErr, OnOk};
ghost use Rattle.stanza_reader.specs.Stanzas.{stanzas};
ghost use Rattle.repo_model.specs.{Refusals.{Refuses}, Limits.{most_bytes}};
ghost use Rattle.status_check.specs.Own.{foreign_count, file_fault, own_home, own_packages};
ghost use Rattle.status_check.specs.Own.{status_fault};

use crate::installed::sort_stanzas;
use relation_fields::Home;
use repo_model::{IndexFault, Suite, suite_of_picked};
use stanza_reader::{StanzaFault, StanzaList, read_stanzas};
use std::alloc::Global;

/// The own packages of a status file as a suite, and how many of its installed stanzas are foreign.
#[derive(Drop)]
pub(crate) struct Own {
    pub(crate) suite: Suite,
    pub(crate) foreign: u64,
}

/// The own packages of a status file, or its first fault; `home` is that of the index.
pub(crate) fn read_own(alloc: Global, home: &Home, bytes: &[u8]) -> Result<Own, IndexFault>
    requires { length bytes.now ≤ most_bytes }
    ensures refused { IfErr result (λ fault. Refuses fault (status_fault home.now bytes.now)) }
    ensures accepted { OnOk result (status_fault home.now bytes.now ≡ None) }
    ensures packages { IfOk result (λ own. own.suite.packages ≡ own_packages home.now bytes.now) }
    ensures home { IfOk result (λ own. own.suite.home ≡ own_home home.now bytes.now) }
    ensures foreign { IfOk result (λ own. own.foreign ≡ foreign_count home.now bytes.now) }
{
    let all = all_stanzas(alloc, bytes)?;
    let stanzas = all.as_slice();
    let sorted = sort_stanzas(alloc, home, stanzas)?;
    let suite = suite_of_picked(alloc, stanzas, &sorted.own)?;
    let foreign = sorted.foreign;
    Ok(Own { suite, foreign })
}

// The stanzas of the whole file, or the first fault of its lines.
fn all_stanzas(alloc: Global, bytes: &[u8]) -> Result<StanzaList, IndexFault>
    ensures stanzas { IfOk result (λ all. stanzas bytes.now ≡ Ok all) }
    ensures refused { IfErr result (λ fault. Refuses fault (file_fault bytes.now)) }
{
    match read_stanzas(alloc, bytes) {
        Ok(all) => Ok(all),
        Err(StanzaFault::Memory) => Err(IndexFault::Memory),
        Err(fault) => Err(IndexFault::Stanza(fault)),
    }
}
