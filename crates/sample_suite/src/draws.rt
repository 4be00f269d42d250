//! Draws of a linear congruential generator.
//!
//! Its constants are Knuth's for 64 bits. A draw takes the upper bits of the state, as the lower
//! ones repeat soon. The generator is written here so that a seed gives the same suite everywhere.
ghost use Rattle.std.specs.Prelude.{◌≡◌, ◌<◌, IfOk, OnOk};
ghost use Rattle.sample_suite.specs.Drawing.{draw, draws, draw_element, draw_needs, draw_package};
ghost use Rattle.sample_suite.specs.Drawing.{draw_conflict};

use crate::package::SamplePackage;
use clause_pool::NumList;
use row_book::ClauseList;
use std::alloc::{AllocError, Global};

/// A generator, by its state.
#[derive(Clone, Copy)]
pub(crate) struct Draws {
    pub(crate) state: u64,
}

impl Draws {
    /// Draws a number below another.
    #[tactic(auto, unfolding(crate::specs::Drawing::draw))]
    pub(crate) fn below(&mut self, most: u32) -> u32
        requires { 0 < most }
        ensures value { result ≡ (draw most self.old.state).value }
        ensures state { self.new.state ≡ (draw most self.old.state).state }
        ensures small { result < most }
    {
        self.state = self
            .state
            .wrapping_mul(6_364_136_223_846_793_005)
            .wrapping_add(1_442_695_040_888_963_407);
        ((self.state >> 33) % u64::from(most)) as u32
    }

    // Draws `times` numbers below another.
    fn numbers(&mut self, alloc: Global, most: u32, times: u32) -> Result<NumList, AllocError>
        requires { 0 < most }
        ensures value { IfOk result (λ numbers. numbers
            ≡ (draws (draw most) times self.old.state).value) }
        ensures state { OnOk result (self.new.state
            ≡ (draws (draw most) times self.old.state).state) }
    {
        let mut numbers = NumList::new(alloc);
        for _ in 0..times {
            numbers.push(self.below(most))?;
        }
        Ok(numbers)
    }

    // Draws the alternatives of an element.
    fn element(&mut self, alloc: Global, count: u32) -> Result<NumList, AllocError>
        requires { 0 < count }
        ensures value { IfOk result (λ alternatives. alternatives
            ≡ (draw_element count self.old.state).value) }
        ensures state { OnOk result (self.new.state ≡ (draw_element count self.old.state).state) }
    {
        let more = self.below(2);
        self.numbers(alloc, count, more + 1)
    }

    // Draws `times` elements.
    fn elements(&mut self, alloc: Global, count: u32, times: u32) -> Result<ClauseList, AllocError>
        requires { 0 < count }
        ensures value { IfOk result (λ elements. elements
            ≡ (draws (draw_element count) times self.old.state).value) }
        ensures state { OnOk result (self.new.state
            ≡ (draws (draw_element count) times self.old.state).state) }
    {
        let mut elements = ClauseList::new(alloc);
        for _ in 0..times {
            elements.push(self.element(alloc, count)?)?;
        }
        Ok(elements)
    }

    // Draws the elements that a package needs.
    fn needs(&mut self, alloc: Global, count: u32) -> Result<ClauseList, AllocError>
        requires { 0 < count }
        ensures value { IfOk result (λ needs. needs ≡ (draw_needs count self.old.state).value) }
        ensures state { OnOk result (self.new.state ≡ (draw_needs count self.old.state).state) }
    {
        let chance = self.below(5);
        self.elements(alloc, count, chance / 2)
    }

    // Draws the package that another conflicts with, if there is to be one.
    fn conflict(&mut self, count: u32) -> Option<u32>
        requires { 0 < count }
        ensures value { result ≡ (draw_conflict count self.old.state).value }
        ensures state { self.new.state ≡ (draw_conflict count self.old.state).state }
    {
        if self.below(4) == 0 {
            Some(self.below(count))
        } else {
            None
        }
    }

    /// Draws what a package needs and what it conflicts with.
    pub(crate) fn package(&mut self, alloc: Global, count: u32) -> Result<SamplePackage, AllocError>
        requires { 0 < count }
        ensures value { IfOk result (λ made. made ≡ (draw_package count self.old.state).value) }
        ensures state { OnOk result (self.new.state ≡ (draw_package count self.old.state).state) }
    {
        let needs = self.needs(alloc, count)?;
        Ok(SamplePackage {
            needs,
            conflict: self.conflict(count),
        })
    }
}
