//! The commands: what words each takes, and its job by its options and by its ordinary words.
ghost use Rattle.std.specs.Prelude.{◌≡◌, false, true, IfOk, IfErr, None, Some, map, option_map};
ghost use Rattle.clap.specs.Words.{found_of, first_value};
ghost use Rattle.coinst_words.specs.Jobs.{compare_job, explain_job, index_query, job_named};
ghost use Rattle.coinst_words.specs.Jobs.{kernel_job, migrate_job, options_by, query_job};
ghost use Rattle.coinst_words.specs.Jobs.{sample_job, settings_by, status_job, stored_query};
ghost use Rattle.coinst_words.specs.Jobs.{AreInLimits, IsInLimits};
ghost use Rattle.coinst_words.specs.Words.{index_and_goals, is_on, is_path, two_paths};
ghost use Rattle.coinst_words.specs.{Given.{options_of}, Parsed.{words_in}};
ghost use Rattle.coinst_words.specs.Refusals.{OnNotACommand};

use crate::error::WordError;
use crate::goals::goals_in;
use crate::job::{Job, Settings};
use crate::numbers::{budget_of, clause_limit_of, count_of, seed_of};
use crate::path::PathText;
use clap::ArgMatches;
use repo_model::GoalList;
use std::alloc::Global;

/// The commands: the name of each, its options without a value, and those with one. Each takes
/// other words too.
pub(crate) const USAGES: [(&str, &[&str], &[&str]); 7] = [
    ("kernel", &["json", "hold"], &["clause-limit"]),
    ("query", &["hold"], &["budget", "clause-limit", "kernel"]),
    ("compare", &["hold"], &["budget", "clause-limit"]),
    ("explain", &["hold"], &["budget", "clause-limit"]),
    ("status", &["hold"], &["budget", "clause-limit"]),
    ("migrate", &["hold"], &["budget", "clause-limit"]),
    ("sample", &[], &[]),
];

// What the options say, before their numbers are read. An option that the command does not take was
// not given.
#[derive(Clone, Copy)]
struct Options<'a> {
    kernel: Option<&'a str>,
    budget: Option<&'a str>,
    clause_limit: Option<&'a str>,
    json: bool,
    hold: bool,
}

impl<'a> Options<'a> {
    // The options that were found.
    fn of(given: &ArgMatches<'a>) -> Options<'a>
        ensures { options_of result ≡ options_by (first_value (found_of given.now)) }
    {
        Options {
            kernel: given.get_str("kernel"),
            budget: given.get_str("budget"),
            clause_limit: given.get_str("clause-limit"),
            json: is_on(given.get_str("json")),
            hold: is_on(given.get_str("hold")),
        }
    }

    // The settings of a job by its options.
    fn settings(&self) -> Result<Settings, WordError>
        ensures settings { IfOk result (λ settings.
            settings_by (options_of self.now) ≡ Some settings) }
        ensures refusal { IfErr result (OnNotACommand (settings_by (options_of self.now) ≡ None)) }
        ensures limited { IfOk result AreInLimits }
    {
        Ok(Settings {
            budget: budget_of(self.budget)?,
            clause_limit: clause_limit_of(self.clause_limit)?,
            hold: self.hold,
        })
    }
}

// Whether a flag was given, by its value.
fn is_on(value: Option<&str>) -> bool
    ensures { result ≡ is_on (option_map (λ s. s.now) value.entry) }
{
    match value {
        Some(value) => value == "true",
        None => false,
    }
}

// Whether the word may be a path.
fn is_path(word: &str) -> bool
    ensures { result ≡ is_path word.now }
{
    word != "" && word != "-"
}

// A copy of the word, if it may be a path.
fn path_in(alloc: Global, word: &str) -> Result<PathText, WordError>
    ensures path { IfOk result (λ path. (is_path word.now ≡ true) × (path ≡ word.now)) }
    ensures refusal { IfErr result (OnNotACommand (is_path word.now ≡ false)) }
{
    if !is_path(word) {
        return Err(WordError::NotACommand);
    }
    Ok(PathText::copy(alloc, word)?)
}

// The paths given by two words.
fn two_paths(alloc: Global, words: &[&str]) -> Result<(PathText, PathText), WordError>
    ensures paths { IfOk result (λ paths. two_paths (map (λ s. s.now) words.now) ≡ Some paths) }
    ensures refusal { IfErr result (OnNotACommand (two_paths (map (λ s. s.now) words.now) ≡ None)) }
{
    let [first, second] = words else {
        return Err(WordError::NotACommand);
    };
    Ok((path_in(alloc, first)?, path_in(alloc, second)?))
}

// The path given by the first word, and the goals that the others name.
fn index_and_goals(alloc: Global, words: &[&str]) -> Result<(PathText, GoalList), WordError>
    ensures both { IfOk result (λ both. index_and_goals (map (λ s. s.now) words.now) ≡ Some both) }
    ensures refusal { IfErr result (OnNotACommand (index_and_goals (map (λ s. s.now) words.now)
        ≡ None)) }
{
    let [index, goals @ ..] = words else {
        return Err(WordError::NotACommand);
    };
    Ok((path_in(alloc, index)?, goals_in(alloc, goals)?))
}

// The job of `kernel`.
fn kernel_job(alloc: Global, options: &Options<'_>, words: &[&str]) -> Result<Job, WordError>
    ensures job { IfOk result (λ job.
        kernel_job (options_of options.now) (map (λ s. s.now) words.now) ≡ Some job) }
    ensures refusal { IfErr result
        (OnNotACommand (kernel_job (options_of options.now) (map (λ s. s.now) words.now) ≡ None)) }
    ensures limited { IfOk result IsInLimits }
{
    let [index] = words else {
        return Err(WordError::NotACommand);
    };
    let index = path_in(alloc, index)?;
    let settings = options.settings()?;
    Ok(Job::Kernel {
        index,
        json: options.json,
        clause_limit: settings.clause_limit,
        hold: settings.hold,
    })
}

// The job of `compare`.
fn compare_job(alloc: Global, options: &Options<'_>, words: &[&str]) -> Result<Job, WordError>
    ensures job { IfOk result (λ job.
        compare_job (options_of options.now) (map (λ s. s.now) words.now) ≡ Some job) }
    ensures refusal { IfErr result
        (OnNotACommand (compare_job (options_of options.now) (map (λ s. s.now) words.now) ≡ None)) }
    ensures limited { IfOk result IsInLimits }
{
    let (old, new) = two_paths(alloc, words)?;
    let settings = options.settings()?;
    Ok(Job::Compare {
        old,
        new,
        budget: settings.budget,
        clause_limit: settings.clause_limit,
        hold: settings.hold,
    })
}

// The job of `explain`.
fn explain_job(alloc: Global, options: &Options<'_>, words: &[&str]) -> Result<Job, WordError>
    ensures job { IfOk result (λ job.
        explain_job (options_of options.now) (map (λ s. s.now) words.now) ≡ Some job) }
    ensures refusal { IfErr result
        (OnNotACommand (explain_job (options_of options.now) (map (λ s. s.now) words.now) ≡ None)) }
    ensures limited { IfOk result IsInLimits }
{
    let (index, goals) = index_and_goals(alloc, words)?;
    let settings = options.settings()?;
    Ok(Job::Explain {
        index,
        goals,
        budget: settings.budget,
        clause_limit: settings.clause_limit,
        hold: settings.hold,
    })
}

// The job of `status`.
fn status_job(alloc: Global, options: &Options<'_>, words: &[&str]) -> Result<Job, WordError>
    ensures job { IfOk result (λ job.
        status_job (options_of options.now) (map (λ s. s.now) words.now) ≡ Some job) }
    ensures refusal { IfErr result
        (OnNotACommand (status_job (options_of options.now) (map (λ s. s.now) words.now) ≡ None)) }
    ensures limited { IfOk result IsInLimits }
{
    let (file, index) = two_paths(alloc, words)?;
    let settings = options.settings()?;
    Ok(Job::Status {
        file,
        index,
        budget: settings.budget,
        clause_limit: settings.clause_limit,
        hold: settings.hold,
    })
}

// The job of `migrate`.
fn migrate_job(alloc: Global, options: &Options<'_>, words: &[&str]) -> Result<Job, WordError>
    ensures job { IfOk result (λ job.
        migrate_job (options_of options.now) (map (λ s. s.now) words.now) ≡ Some job) }
    ensures refusal { IfErr result
        (OnNotACommand (migrate_job (options_of options.now) (map (λ s. s.now) words.now) ≡ None)) }
    ensures limited { IfOk result IsInLimits }
{
    let (old, new) = two_paths(alloc, words)?;
    let settings = options.settings()?;
    Ok(Job::Migrate {
        old,
        new,
        budget: settings.budget,
        clause_limit: settings.clause_limit,
        hold: settings.hold,
    })
}

// The job of `sample`.
fn sample_job(words: &[&str]) -> Result<Job, WordError>
    ensures job { IfOk result (λ job. sample_job (map (λ s. s.now) words.now) ≡ Some job) }
    ensures refusal { IfErr result (OnNotACommand (sample_job (map (λ s. s.now) words.now)
        ≡ None)) }
    ensures limited { IfOk result IsInLimits }
{
    let [seed, count] = words else {
        return Err(WordError::NotACommand);
    };
    let seed = seed_of(seed)?;
    let count = count_of(count)?;
    Ok(Job::Sample { seed, count })
}

// The job of `query`: on a stored kernel if one is named, else on the index that the first word
// names.
fn query_job(alloc: Global, options: &Options<'_>, words: &[&str]) -> Result<Job, WordError>
    ensures job { IfOk result (λ job.
        query_job (options_of options.now) (map (λ s. s.now) words.now) ≡ Some job) }
    ensures refusal { IfErr result
        (OnNotACommand (query_job (options_of options.now) (map (λ s. s.now) words.now) ≡ None)) }
    ensures limited { IfOk result IsInLimits }
{
    match options.kernel {
        Some(kernel) => stored_query(alloc, kernel, options, words),
        None => index_query(alloc, options, words),
    }
}

// A query on an index.
fn index_query(alloc: Global, options: &Options<'_>, words: &[&str]) -> Result<Job, WordError>
    ensures job { IfOk result (λ job.
        index_query (options_of options.now) (map (λ s. s.now) words.now) ≡ Some job) }
    ensures refusal { IfErr result
        (OnNotACommand (index_query (options_of options.now) (map (λ s. s.now) words.now) ≡ None)) }
    ensures limited { IfOk result IsInLimits }
{
    let (index, goals) = index_and_goals(alloc, words)?;
    let settings = options.settings()?;
    Ok(Job::Query {
        index,
        goals,
        budget: settings.budget,
        clause_limit: settings.clause_limit,
        hold: settings.hold,
    })
}

// A query on a stored kernel, for which neither a clause limit nor `--hold` has a meaning.
fn stored_query(
    alloc: Global,
    kernel: &str,
    options: &Options<'_>,
    words: &[&str],
) -> Result<Job, WordError>
    ensures job { IfOk result (λ job. stored_query kernel.now (options_of options.now).budget
        (options_of options.now).clause_limit (options_of options.now).hold
        (map (λ s. s.now) words.now) ≡ Some job) }
    ensures refusal { IfErr result (OnNotACommand (stored_query kernel.now
        (options_of options.now).budget (options_of options.now).clause_limit
        (options_of options.now).hold (map (λ s. s.now) words.now) ≡ None)) }
    ensures limited { IfOk result IsInLimits }
{
    if options.clause_limit.is_some() || options.hold {
        return Err(WordError::NotACommand);
    }
    let kernel = path_in(alloc, kernel)?;
    let budget = budget_of(options.budget)?;
    let goals = goals_in(alloc, words)?;
    Ok(Job::StoredQuery {
        kernel,
        goals,
        budget,
    })
}

/// The job of the command with this name, by what was found after it: options with their values,
/// and ordinary words.
pub(crate) fn job_named<'a>(
    alloc: Global,
    name: &str,
    given: &ArgMatches<'a>,
) -> Result<Job, WordError>
    ensures job { IfOk result (λ job. job_named name.now (options_by
        (first_value (found_of given.now))) (words_in (found_of given.now)) ≡ Some job) }
    ensures refusal { IfErr result (OnNotACommand (job_named name.now
        (options_by (first_value (found_of given.now))) (words_in (found_of given.now)) ≡ None)) }
    ensures limited { IfOk result IsInLimits }
{
    // Each command takes ordinary words, so without any there is no job.
    let Some(words) = given.get_raw("words") else {
        return Err(WordError::NotACommand);
    };
    job_by_name(alloc, name, &Options::of(given), words)
}

// The job of the command with this name.
fn job_by_name(
    alloc: Global,
    name: &str,
    options: &Options<'_>,
    words: &[&str],
) -> Result<Job, WordError>
    ensures job { IfOk result (λ job.
        job_named name.now (options_of options.now) (map (λ s. s.now) words.now) ≡ Some job) }
    ensures refusal { IfErr result (OnNotACommand
        (job_named name.now (options_of options.now) (map (λ s. s.now) words.now) ≡ None)) }
    ensures limited { IfOk result IsInLimits }
{
    match name {
        "kernel" => kernel_job(alloc, options, words),
        "query" => query_job(alloc, options, words),
        "compare" => compare_job(alloc, options, words),
        "explain" => explain_job(alloc, options, words),
        "status" => status_job(alloc, options, words),
        "migrate" => migrate_job(alloc, options, words),
        "sample" => sample_job(words),
        _ => Err(WordError::NotACommand),
    }
}
