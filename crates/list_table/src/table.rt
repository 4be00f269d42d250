//! Lists that are each kept once, found by their items.
ghost use Rattle.std.specs.Prelude.{◌≡◌, ℕ, ◌∷◌, ◌++◌, [], ◌<◌, length, slice_index_or, IfOk};
ghost use Rattle.std.specs.Prelude.{OnErr, IfSome, IfNone};
ghost use Rattle.list_table.specs.Lists.{StandsAt};

use crate::hash_index::{Place, find_in, make_room, put_in};
use crate::item::Item;
use crate::spans::Spans;
use std::alloc::{AllocError, Global};
use std::marker::Model;

/// The most lists: the number of each plus one has to fit into a place of the index. More count as
/// want of memory.
const MOST: usize = 4_294_967_294;

/// Lists of items in the order in which they came, with an index that finds each by its items.
#[derive(Drop)]
pub struct ListTable<T: Item> {
    lists: Spans<T>,
    places: Vec<Place>,
}

impl<T: Item> Model for ListTable<T> {
    ghost use Rattle.std.specs.{Prelude.{List, map}, Coded.{coded_list}};
    ghost use Rattle.list_table.specs.Index.{IsTable};

    ghost Value = { List (List T) };

    ghost coded = { coded_list (coded_list T.code) };

    ghost view = { λ s. s.lists };

    ghost invariant = { λ s. IsTable s.places.items (map T.hash_of s.lists) };
}

impl<T: Item> ListTable<T> {
    /// No lists.
    pub fn new(alloc: Global) -> Self
        ensures { result ≡ [] }
    {
        ListTable {
            lists: Spans::new(alloc),
            places: Vec::new(alloc),
        }
    }

    /// A copy of the lists and of their index.
    pub fn copy(&self, alloc: Global) -> Result<Self, AllocError>
        ensures { IfOk result (λ made. made ≡ self.now) }
    {
        Ok(ListTable {
            lists: self.lists.copy(alloc)?,
            places: Vec::from_slice(alloc, self.places.as_slice())?,
        })
    }

    /// The number of lists.
    pub fn count(&self) -> usize
        ensures { result ≡ length self.now }
    {
        self.lists.count()
    }

    /// The allocator of the table.
    pub fn allocator(&self) -> Global {
        *self.places.allocator()
    }

    /// The place of the list with these items, given their hash.
    pub fn find(&self, hash: u32, items: &[T]) -> Option<u32>
        requires { hash ≡ T.hash_of items.now }
        ensures some { IfSome result (StandsAt items.now self.now) }
        ensures none { IfNone result ((place : ℕ) → StandsAt items.now self.now place → ⊥) }
    {
        find_in(&self.places, &self.lists, hash, items)
    }

    /// The list at a place.
    pub fn at(&self, place: usize) -> &[T]
        requires { place < length self.now }
        ensures { result.now ≡ slice_index_or self.now place [] }
    {
        self.lists.at(place)
    }

    /// Appends a list, given its hash, and returns its place.
    pub fn push(&mut self, hash: u32, items: &[T]) -> Result<u32, AllocError>
        requires { hash ≡ T.hash_of items.now }
        ensures place { IfOk result (λ place. place ≡ length self.old) }
        ensures ok { IfOk result (λ place. self.new ≡ self.old ++ items.now ∷ []) }
        ensures err { OnErr result (self.new ≡ self.old) }
    {
        let count = self.lists.count();
        if count >= MOST {
            return Err(AllocError);
        }
        let number = count as u32;
        make_room(&mut self.places, &self.lists)?;
        self.lists.push(items)?;
        put_in(&mut self.places, hash, number);
        Ok(number)
    }
}
