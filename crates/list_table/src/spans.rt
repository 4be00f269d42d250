//! Lists stored one after another in one vector.
ghost use Rattle.std.specs.Prelude.{◌≡◌, ◌∷◌, ◌++◌, [], ◌<◌, ◌≤◌, length, slice_index_or, IfOk};
ghost use Rattle.std.specs.Prelude.{OnOk, OnErr};
ghost use Rattle.list_table.specs.Parts.{part};

use std::alloc::{AllocError, Global};
use std::marker::Model;

/// The most items in all, so that each place is below 2^32. A list that does not fit counts as want
/// of memory.
const MOST: usize = 4_294_967_295;

/// Lists of items in the order in which they came, all in one vector.
#[derive(Drop)]
pub(crate) struct Spans<T> {
    items: Vec<T>,
    ends: Vec<(u32, u32)>,
}

impl<T> Model for Spans<T> {
    ghost use Rattle.std.specs.{Prelude.{List, length}, Coded.{coded_list}};
    ghost use Rattle.list_table.specs.Parts.{parts, SpansFit};

    ghost Value = { List (List T) };

    ghost coded = { coded_list (coded_list T.code) };

    ghost view = { λ s. parts s.items.items s.ends.items };

    ghost invariant = { λ s. SpansFit (length s.items.items) s.ends.items };
}

fn part_of<T>(items: &[T], start: usize, end: usize) -> &[T]
    requires start { start ≤ end }
    requires end { end ≤ length items.now }
    ensures { result.now ≡ part items.now (start, end) }
{
    &items[start..end]
}

impl<T: Copy> Spans<T> {
    /// No lists.
    pub(crate) fn new(alloc: Global) -> Self
        ensures { result ≡ [] }
    {
        Spans {
            items: Vec::new(alloc),
            ends: Vec::new(alloc),
        }
    }

    /// A copy of the lists.
    pub(crate) fn copy(&self, alloc: Global) -> Result<Self, AllocError>
        ensures { IfOk result (λ made. made ≡ self.now) }
    {
        Ok(Spans {
            items: Vec::from_slice(alloc, self.items.as_slice())?,
            ends: Vec::from_slice(alloc, self.ends.as_slice())?,
        })
    }

    /// The number of lists.
    pub(crate) fn count(&self) -> usize
        ensures { result ≡ length self.now }
    {
        self.ends.len()
    }

    /// The list at a place.
    pub(crate) fn at(&self, place: usize) -> &[T]
        requires { place < length self.now }
        ensures { result.now ≡ slice_index_or self.now place [] }
    {
        let (start, end) = self.ends[place];
        part_of(&self.items, start as usize, end as usize)
    }

    /// Appends a list.
    pub(crate) fn push(&mut self, list: &[T]) -> Result<(), AllocError>
        ensures ok { OnOk result (self.new ≡ self.old ++ list.now ∷ []) }
        ensures err { OnErr result (self.new ≡ self.old) }
    {
        let start = self.items.len();
        let end = start.saturating_add(list.len());
        if end > MOST {
            return Err(AllocError);
        }
        self.items.extend_from_slice(list)?;
        self.ends.push((start as u32, end as u32))?;
        Ok(())
    }
}
