//! The sentences of goals and of the clauses of a book.
ghost use Rattle.std.specs.Prelude.{◌≡◌, ◌<◌, ◌++◌, IfOk, OnOk, length, map};
ghost use Rattle.clause_pool.specs.Interned.{clauses_at, row_at, OfPool};
ghost use Rattle.row_book.specs.{Book.{RowsFit}, Needs.{AreNeeds}};
ghost use Rattle.search_terms.specs.Form.{goal_sentence, clause_sentence, owned_sentences};

use crate::{Literal, LiteralList};
use clause_pool::{ClauseId, Pool, RowId};
use listed::Listed;
use row_book::Needs;
use std::alloc::{AllocError, Global};

/// The members of a clause as chosen classes.
fn members(alloc: Global, clause: &[u32]) -> Result<Vec<Literal>, AllocError>
    ensures { IfOk result (λ v. v.items ≡ goal_sentence clause.now) }
{
    clause
        .iter()
        .map(|n| Literal {
            class: *n,
            positive: true,
        })
        .collect(alloc)
}

/// The sentence of a clause of a class: the class is not chosen, or a member of the clause is.
fn sentence_of(alloc: Global, owner: u32, clause: &[u32]) -> Result<LiteralList, AllocError>
    ensures { IfOk result (λ s. s ≡ clause_sentence owner clause.now) }
{
    let mut items = Vec::new(alloc);
    items.push(Literal {
        class: owner,
        positive: false,
    })?;
    let mut rest = members(alloc, clause)?;
    items.append(&mut rest)?;
    Ok(Listed::of(items))
}

/// The sentences of goals.
pub fn goal_sentences(alloc: Global, goals: &Needs) -> Result<Vec<LiteralList>, AllocError>
    ensures sentences { IfOk result (λ v. v.items ≡ map goal_sentence goals.now) }
    ensures needs { AreNeeds goals.now }
{
    let mut made = Vec::new(alloc);
    for place in 0..goals.count() {
        made.push(Listed::of(members(alloc, goals.at(place))?))?;
    }
    Ok(made)
}

/// Appends the sentences of the clauses of a row.
fn add_row(
    alloc: Global,
    pool: &Pool,
    owner: u32,
    ids: &[ClauseId],
    all: &mut Vec<LiteralList>,
) -> Result<(), AllocError>
    requires { OfPool pool.now ids.now }
    ensures { OnOk result (all.new.items
        ≡ all.old.items ++ map (clause_sentence owner) (clauses_at pool.now ids.now)) }
{
    for id in ids {
        all.push(sentence_of(alloc, owner, pool.slice(*id))?)?;
    }
    Ok(())
}

/// The sentences of the clauses of all rows, numbered from 0.
pub fn clause_sentences(
    alloc: Global,
    pool: &Pool,
    rows: &[RowId],
) -> Result<Vec<LiteralList>, AllocError>
    requires few { length rows.now < u32.MAX }
    requires fit { RowsFit pool.now rows.now }
    ensures { IfOk result (λ v. v.items
        ≡ owned_sentences clause_sentence 0 (map (row_at pool.now) rows.now)) }
{
    let mut all = Vec::new(alloc);
    for (owner, row) in rows.iter().enumerate() {
        add_row(alloc, pool, owner as u32, pool.row(*row), &mut all)?;
    }
    Ok(all)
}
