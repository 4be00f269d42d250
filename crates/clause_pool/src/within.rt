//! Whether a clause of a row lies within some numbers. Rows are in lexicographic order, so only the
//! clauses that begin with some of the numbers are looked at. No long row is gone over from end to
//! end.
ghost use Rattle.std.specs.Prelude.{◌≡◌, ◌<◌, ◌≤◌, ◌+◌, ◌||◌, ℕ, drop, filter, length, map};
ghost use Rattle.std.specs.{Prelude.{slice_index_or}, Bool.{OnFalse, OnTrue}, List.{list_any}};
ghost use Rattle.std.specs.Option.{option_map, ForSome};
ghost use Rattle.clause_pool.specs.Interned.{clause_at, clauses_at, IsPool, OfPool};
ghost use Rattle.clause_pool.specs.Lists.{InOrder};
ghost use Rattle.clause_pool.specs.Within.{goes_on, lead, rest_at, rest_within, some_within};
ghost use Rattle.listed.specs.Lists.{has, In, is_inside, Ascending};

use crate::{ClauseId, Pool};
use listed::{holds_ascending, is_inside_ascending};

/// A group of clauses up to this length is gone over one by one.
const SHORT: usize = 8;

/// Lends what the clause of the id has from the depth on.
fn rest_of(pool: &Pool, id: ClauseId, depth: usize) -> &[u32]
    requires id { id < length pool.now.clauses }
    requires deep { depth ≤ length (clause_at pool.now id) }
    ensures { result.now ≡ rest_at pool.now depth id }
{
    let clause = pool.slice(id);
    &clause[depth..]
}

/// Whether the clause of the id is another one than the given one, and has only wanted numbers from
/// the depth on.
fn is_within(
    pool: &Pool,
    but: &Option<ClauseId>,
    depth: usize,
    wanted: &[u32],
    id: ClauseId,
) -> bool
    requires pool { IsPool pool.now }
    requires but { ForSome but.now (λ other. other < length pool.now.clauses) }
    requires wanted { Ascending wanted.now }
    requires id { id < length pool.now.clauses }
    requires deep { depth ≤ length (clause_at pool.now id) }
    ensures { result
        ≡ rest_within pool.now (option_map (clause_at pool.now) but.now) depth wanted.now id }
{
    match but {
        Some(other) => id != *other && is_inside_ascending(rest_of(pool, id, depth), wanted),
        None => is_inside_ascending(rest_of(pool, id, depth), wanted),
    }
}

/// Whether `is_within` holds of some clause of the group, by a look at each.
fn any_within(
    pool: &Pool,
    group: &[ClauseId],
    depth: usize,
    but: &Option<ClauseId>,
    wanted: &[u32],
) -> bool
    requires pool { IsPool pool.now }
    requires group { OfPool pool.now group.now }
    requires deep { (id : ℕ) → In id group.now → depth ≤ length (clause_at pool.now id) }
    requires but { ForSome but.now (λ other. other < length pool.now.clauses) }
    requires wanted { Ascending wanted.now }
    ensures { result ≡ list_any (rest_within pool.now
        (option_map (clause_at pool.now) but.now) depth wanted.now) group.now }
{
    for id in group {
        if is_within(pool, but, depth, wanted, *id) {
            return true;
        }
    }
    false
}

/// Whether the clause of the id ends at the depth or has a lesser number there.
fn goes_on_below(pool: &Pool, id: ClauseId, depth: usize, number: u64) -> bool
    requires { id < length pool.now.clauses }
    ensures below { OnTrue result (lead (rest_at pool.now depth id) ≤ number) }
    ensures not_below { OnFalse result (number < lead (rest_at pool.now depth id)) }
{
    match pool.slice(id).get(depth) {
        Some(literal) => u64::from(*literal) < number,
        None => true,
    }
}

/// The place in the group of the first clause that has the number or a greater one at the depth, by
/// binary search.
fn first_by_halves(pool: &Pool, group: &[ClauseId], depth: usize, number: u64) -> usize
    requires group { OfPool pool.now group.now }
    requires order { InOrder (map (rest_at pool.now depth) group.now) }
    ensures within { result ≤ length group.now }
    ensures before { (k : ℕ) → k < result →
        lead (rest_at pool.now depth (slice_index_or group.now k 0)) ≤ number }
    ensures behind { (k : ℕ) → result ≤ k → k < length group.now →
        number < lead (rest_at pool.now depth (slice_index_or group.now k 0)) }
{
    let mut low = 0;
    let mut high = group.len();
    while low < high {
        let middle = low + (high - low) / 2;
        if goes_on_below(pool, group[middle], depth, number) {
            low = middle + 1;
        } else {
            high = middle;
        }
    }
    low
}

/// The place that `first_by_halves` finds. The ends are looked at first: mostly all clauses of a
/// group have one number there, or the number is below or above all of theirs.
fn first_from(pool: &Pool, group: &[ClauseId], depth: usize, number: u64) -> usize
    requires group { OfPool pool.now group.now }
    requires order { InOrder (map (rest_at pool.now depth) group.now) }
    ensures within { result ≤ length group.now }
    ensures before { (k : ℕ) → k < result →
        lead (rest_at pool.now depth (slice_index_or group.now k 0)) ≤ number }
    ensures behind { (k : ℕ) → result ≤ k → k < length group.now →
        number < lead (rest_at pool.now depth (slice_index_or group.now k 0)) }
{
    let size = group.len();
    if size == 0 {
        return 0;
    }
    if !goes_on_below(pool, group[0], depth, number) {
        return 0;
    }
    if goes_on_below(pool, group[size - 1], depth, number) {
        return size;
    }
    first_by_halves(pool, group, depth, number)
}

/// Lends the clauses of the group that have the number at the depth.
fn group_of<'a>(pool: &Pool, group: &'a [ClauseId], depth: usize, number: u32) -> &'a [ClauseId]
    requires group { OfPool pool.now group.now }
    requires order { InOrder (map (rest_at pool.now depth) group.now) }
    ensures { result.now ≡ filter (goes_on pool.now depth number) group.now }
{
    let start = first_from(pool, group, depth, u64::from(number));
    let end = first_from(pool, group, depth, u64::from(number) + 1);
    &group[start..end]
}

/// Whether the last clause of the group, and so each, ends at the depth or has a lesser number
/// there.
fn all_below(pool: &Pool, group: &[ClauseId], depth: usize, number: u32) -> bool
    requires group { OfPool pool.now group.now }
    requires order { InOrder (map (rest_at pool.now depth) group.now) }
    ensures { OnTrue result ((id : ℕ) → In id group.now →
        lead (rest_at pool.now depth id) ≤ number) }
{
    match group.last() {
        Some(last) => goes_on_below(pool, *last, depth, u64::from(number)),
        None => false,
    }
}

/// Lends the numbers after a place.
fn numbers_behind(numbers: &[u32], place: usize) -> &[u32]
    requires { place < length numbers.now }
    ensures { result.now ≡ drop (place + 1) numbers.now }
{
    &numbers[place + 1..]
}

/// Whether some clause of the group, other than the given one, has only wanted numbers from the
/// depth on. The clauses of a group begin alike up to there. One that ends there comes first, and
/// those that go on alike are neighbours. Clauses ascend, so each goes on with wanted numbers that
/// come after the one it has at the depth.
fn has_rest_within(
    pool: &Pool,
    group: &[ClauseId],
    depth: usize,
    but: &Option<ClauseId>,
    wanted: &[u32],
) -> bool
    requires pool { IsPool pool.now }
    requires group { OfPool pool.now group.now }
    requires deep { (id : ℕ) → In id group.now → depth ≤ length (clause_at pool.now id) }
    requires order { InOrder (map (rest_at pool.now depth) group.now) }
    requires but { ForSome but.now (λ other. other < length pool.now.clauses) }
    requires wanted { Ascending wanted.now }
    requires fits { depth + length wanted.now < 18446744073709551616 }
    ensures { result ≡ list_any (rest_within pool.now
        (option_map (clause_at pool.now) but.now) depth wanted.now) group.now }
{
    if group.len() <= SHORT || group.len() <= wanted.len() {
        return any_within(pool, group, depth, but, wanted);
    }
    if is_within(pool, but, depth, wanted, group[0]) {
        return true;
    }
    for (place, number) in wanted.iter().enumerate() {
        if all_below(pool, group, depth, *number) {
            return false;
        }
        let part = group_of(pool, group, depth, *number);
        let rest = numbers_behind(wanted, place);
        if has_rest_within(pool, part, depth + 1, but, rest) {
            return true;
        }
    }
    false
}

/// Whether some clause of the row, other than the given one, lies within the numbers.
pub fn has_within(pool: &Pool, row: &[ClauseId], but: &Option<ClauseId>, numbers: &[u32]) -> bool
    requires pool { IsPool pool.now }
    requires row { OfPool pool.now row.now }
    requires order { InOrder (clauses_at pool.now row.now) }
    requires but { ForSome but.now (λ other. other < length pool.now.clauses) }
    requires numbers { Ascending numbers.now }
    ensures { result ≡ some_within (option_map (clause_at pool.now) but.now) numbers.now
        (clauses_at pool.now row.now) }
{
    has_rest_within(pool, row, 0, but, numbers)
}

/// Whether the package, or a clause of its row, lies within the ascending numbers.
pub fn has_side_within(pool: &Pool, number: u32, row: &[ClauseId], numbers: &[u32]) -> bool
    requires pool { IsPool pool.now }
    requires row { OfPool pool.now row.now }
    requires order { InOrder (clauses_at pool.now row.now) }
    requires numbers { Ascending numbers.now }
    ensures { result ≡ (has numbers.now number
        || list_any (λ e. is_inside e numbers.now) (clauses_at pool.now row.now)) }
{
    holds_ascending(numbers, number) || has_within(pool, row, &None, numbers)
}
