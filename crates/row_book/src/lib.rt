//! Repositories of numbered packages with their clauses and conflicts.
#![tactic(auto)]

mod book;
mod changes;
mod clause_table;
mod comparing;
mod conflicting;
mod health;
mod lent_book;
mod moving;
mod needs;
mod pair;
mod pairing;
mod subsets;
mod trail;
mod uses;

// Books: the clauses and conflicts of numbered packages.
pub use book::{Book, ConflictTable, RowList};
pub use lent_book::LentBook;
pub use needs::Needs;
pub use pair::Pair;

// Whether books or lists are the same.
pub use comparing::{are_same_lists, is_same_book, same_books};

// Which packages are healthy or conflict, and which lists hold or hit others.
pub use conflicting::{are_against, common_conflicts, conflicts_of};
pub use health::Unhealthy;
pub use listed::holds;
pub use subsets::is_coinst;

// Tables of who names whom, and of the rows that hold a clause.
pub use clause_table::{ClauseTable, clause_holds};
pub use uses::{UseTable, distinct_numbers_in};

// The steps that reductions leave.
pub use trail::{Step, StepList, Trail};

// Lists.
use clause_pool::ClauseId;
pub use clause_pool::NumList;
use listed::Listed;

/// The clauses of a row, by their ids.
pub type IdList = Listed<ClauseId>;

/// The clauses of one package.
pub type ClauseList = Listed<NumList>;
