//! Some packages of a book.
ghost use Rattle.std.specs.Prelude.{◌≡◌, ◌<◌, ◌+◌, ℕ, cond, length, map, IfOk, OnOk};
ghost use Rattle.std.specs.List.{list_any};
ghost use Rattle.listed.specs.Lists.{In};
ghost use Rattle.row_book.specs.{Flags.{flag}, Numbers.{numbers}};
ghost use Rattle.row_book.specs.Parts.{chosen_in, number_in, place_in};

use std::alloc::{AllocError, Global};

/// Some packages of a book: for each package of the book whether it is chosen, and how many chosen
/// ones come before it.
#[derive(Drop)]
pub struct Subset {
    /// For each package whether it is chosen.
    pub flags: Vec<bool>,
    // How many chosen ones come before each package.
    places: Vec<u32>,
    ghost numbered: { places.items ≡ map (place_in flags.items) (numbers (length flags.items) 0) },
}

impl Subset {
    /// The packages whose flags are up; 4,294,967,296 of them or more count as want of memory.
    pub fn of(alloc: Global, flags: Vec<bool>) -> Result<Subset, AllocError>
        ensures { IfOk result (λ made. made.flags.items ≡ flags.items) }
    {
        let places = places_in(alloc, &flags)?;
        Ok(Subset { flags, places })
    }

    /// How many chosen packages come before a package.
    pub(crate) fn place(&self, number: usize) -> u32
        requires { number < length self.now.flags.items }
        ensures { result ≡ place_in self.now.flags.items number }
    {
        self.places[number]
    }

    /// For each package the item of a list at its place among the chosen ones. For a package that
    /// is not chosen it says nothing.
    pub fn spread(&self, alloc: Global, list: &[u32]) -> Result<Vec<u32>, AllocError>
        ensures { IfOk result (λ made. made.items ≡ map (λ n. number_in list.now
            (place_in self.now.flags.items n)) (numbers (length self.now.flags.items) 0)) }
    {
        let mut made = Vec::with_capacity(alloc, self.places.len())?;
        for place in &self.places {
            made.push(number_at(list, *place))?;
        }
        Ok(made)
    }

    /// Those of the packages that are chosen, by their numbers among the chosen ones.
    pub fn among(&self, alloc: Global, numbers: &[u32]) -> Result<Vec<u32>, AllocError>
        requires { (n : ℕ) → In n numbers.now → n < length self.now.flags.items }
        ensures { IfOk result (λ made. made.items ≡ chosen_in self.now.flags.items numbers.now) }
    {
        let mut made = Vec::new(alloc);
        self.put_among(&mut made, numbers)?;
        Ok(made)
    }

    /// Fills the list anew with what `among` returns.
    pub fn put_among(&self, made: &mut Vec<u32>, numbers: &[u32]) -> Result<(), AllocError>
        requires { (n : ℕ) → In n numbers.now → n < length self.now.flags.items }
        ensures { OnOk result (made.new.items ≡ chosen_in self.now.flags.items numbers.now) }
    {
        made.clear();
        for number in numbers {
            let place = *number as usize;
            if self.flags[place] {
                made.push(self.places[place])?;
            }
        }
        Ok(())
    }
}

// The number at a place, or 0 past the last.
fn number_at(list: &[u32], place: u32) -> u32
    ensures { result ≡ number_in list.now place }
{
    match list.get(place as usize) {
        Some(number) => *number,
        None => 0,
    }
}

/// Whether one of the packages has its flag up.
pub(crate) fn has_one(flags: &[bool], numbers: &[u32]) -> bool
    requires { (n : ℕ) → In n numbers.now → n < length flags.now }
    ensures { result ≡ list_any (flag flags.now) numbers.now }
{
    for number in numbers {
        if flags[*number as usize] {
            return true;
        }
    }
    false
}

// For each flag how many before it are up.
fn places_in(alloc: Global, flags: &[bool]) -> Result<Vec<u32>, AllocError>
    ensures { IfOk result (λ places. places.items
        ≡ map (place_in flags.now) (numbers (length flags.now) 0)) }
{
    let mut places = Vec::with_capacity(alloc, flags.len())?;
    let mut count: u32 = 0;
    for flag in flags {
        places.push(count)?;
        count = counted(count, *flag)?;
    }
    Ok(places)
}

// The count with one more, if the flag is up.
fn counted(count: u32, is_up: bool) -> Result<u32, AllocError>
    ensures { IfOk result (λ more. more ≡ count + cond is_up 1 0) }
{
    if !is_up {
        return Ok(count);
    }
    if count == u32::MAX {
        return Err(AllocError);
    }
    Ok(count + 1)
}
