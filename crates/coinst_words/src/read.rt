//! From the words to the job that they ask for.
ghost use Rattle.std.specs.Prelude.{◌≡◌, IfOk, IfErr, None, Some, map, string_bytes};
ghost use Rattle.coinst_words.specs.{Jobs.{job_of, IsInLimits}, Refusals.{OnNotACommand}};

use crate::error::WordError;
use crate::job::Job;
use crate::jobs::job_named;
use crate::parse::parse;
use std::alloc::Global;

/// The job that the words after the program's name ask for, if they ask for one.
pub fn read_words(alloc: Global, words: &[String]) -> Result<Job, WordError>
    ensures job { IfOk result (λ job. job_of (map string_bytes words.now) ≡ Some job) }
    ensures refusal { IfErr result (OnNotACommand (job_of (map string_bytes words.now) ≡ None)) }
    ensures limited { IfOk result IsInLimits }
{
    let matches = parse(alloc, words)?;
    match matches.subcommand() {
        Some((name, given)) => job_named(alloc, name, given),
        None => Err(WordError::NotACommand),
    }
}
