//! The whole formula of a book and goals, as a list of sentences.
ghost use Rattle.std.specs.Prelude.{◌≡◌, ◌<◌, ◌++◌, IfOk, OnOk, length, map};
ghost use Rattle.row_book.specs.Book.{repository_of, Sound};
ghost use Rattle.search_terms.specs.Form.{conflict_sentence, form, owned_sentences};

use clause_pool::{NumList, Pool};
use listed::Listed;
use row_book::{Book, Needs};
use search_terms::{Literal, LiteralList, clause_sentences, goal_sentences};
use std::alloc::{AllocError, Global};

/// The sentence of two classes that conflict.
fn pair_of(alloc: Global, p: u32, q: u32) -> Result<LiteralList, AllocError>
    ensures { IfOk result (λ s. s ≡ conflict_sentence p q) }
{
    let mut items = Vec::new(alloc);
    items.push(Literal {
        class: p,
        positive: false,
    })?;
    items.push(Literal {
        class: q,
        positive: false,
    })?;
    Ok(Listed::of(items))
}

/// Appends the sentences of the conflicts of a class.
fn add_pairs(
    alloc: Global,
    p: u32,
    others: &[u32],
    all: &mut Vec<LiteralList>,
) -> Result<(), AllocError>
    ensures { OnOk result (all.new.items ≡ all.old.items ++ map (conflict_sentence p) others.now) }
{
    for q in others {
        all.push(pair_of(alloc, p, *q)?)?;
    }
    Ok(())
}

/// Appends the sentences of all conflicts.
fn add_conflicts(
    alloc: Global,
    conflicts: &[NumList],
    all: &mut Vec<LiteralList>,
) -> Result<(), AllocError>
    requires { length conflicts.now < u32.MAX }
    ensures { OnOk result (all.new.items
        ≡ all.old.items ++ owned_sentences conflict_sentence 0 conflicts.now) }
{
    for (p, others) in conflicts.iter().enumerate() {
        add_pairs(alloc, p as u32, others.as_slice(), all)?;
    }
    Ok(())
}

/// The sentences of the formula of a book and goals.
pub(crate) fn form_of(
    alloc: Global,
    pool: &Pool,
    book: &Book,
    goals: &Needs,
) -> Result<Vec<LiteralList>, AllocError>
    requires sound { Sound pool.now book.now }
    ensures { IfOk result (λ f. f.items ≡ form (repository_of pool.now book.now) goals.now) }
{
    let mut all = goal_sentences(alloc, goals)?;
    let mut own = clause_sentences(alloc, pool, book.rows.as_slice())?;
    all.append(&mut own)?;
    add_conflicts(alloc, book.conflicts.as_slice(), &mut all)?;
    Ok(all)
}
