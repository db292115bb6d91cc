//! `Front`: a position in a text during a comparison, at one of its collation elements or after the last.

ghost use Rattle.std.specs.Prelude.{◌≡◌};
ghost use Rattle.std.specs.Bool.{OnTrue};
ghost use Rattle.uca_comparison.specs.Fronts;
ghost use Rattle.uca_comparison.specs.Fronts.{Agree, advanced, begun, front_weights};

use crate::element_stream::ElementStream;
use std::marker::Model;
use uca_order::weighting::{is_after_variable, weights_of};
use uca_weights::{Element, Weighting};

/// The collation elements of a text from the front on.
#[derive(Drop)]
pub struct Front<S: ElementStream> {
    // the element at the front, or none after the last
    element: Option<Element>,
    // the elements after it
    elements: S,
    // whether the nearest element with a primary weight before them is variable
    after_variable: bool,
    // how many elements come before them
    passed: u64,
}

impl<S: ElementStream> Model for Front<S> {
    ghost use Rattle.uca_comparison.specs.Fronts.{FrontState, from_front};

    ghost Value = { FrontState };

    ghost view = { λ f. record {
      elements = from_front f.element (S.left f.elements);
      after_variable = f.after_variable;
      passed = f.passed;
    } };
}

impl<S: ElementStream> Front<S> {
    /// At the first element of a text.
    pub fn new(elements: S) -> Front<S>
        ensures { result ≡ begun (S.left elements) }
    {
        Front::after(elements, false, 0)
    }

    /// At the first of these elements, after others. `after_variable` says whether the nearest of those with a primary
    /// weight is variable, and `passed` how many there are.
    pub fn after(elements: S, after_variable: bool, passed: u64) -> Front<S>
        ensures { result ≡ record { elements = S.left elements; after_variable = after_variable; passed = passed } }
    {
        let mut elements = elements;
        Front {
            element: elements.take_next(),
            elements,
            after_variable,
            passed,
        }
    }

    /// Goes on to the next element. After the last one it stays.
    pub fn advance(&mut self)
        ensures { self.new ≡ advanced self.old }
    {
        let Some(element) = self.element else {
            return;
        };
        self.after_variable = is_after_variable(self.after_variable, element);
        self.passed = self.passed.saturating_add(1);
        self.element = self.elements.take_next();
    }

    /// Whether it is after the last element.
    pub fn is_ended(&self) -> bool
        ensures { result ≡ Fronts.is_ended self.now }
    {
        self.element.is_none()
    }

    /// The weights at the front, at the levels 1 to 4: 0 means that there is none.
    pub fn weights(&self, weighting: Weighting) -> [u16; 4]
        ensures { result ≡ front_weights weighting self.now }
    {
        match self.element {
            Some(element) => weights_of(weighting, self.after_variable, element),
            None => [0; 4],
        }
    }

    /// Whether two fronts have the same element with the same weights, or both have none. It is only a test for speed:
    /// `false` says nothing.
    pub fn agrees(&self, other: &Front<S>) -> bool
        ensures { OnTrue result (Agree self.now other.now) }
    {
        self.element == other.element && self.after_variable == other.after_variable
    }

    /// How many elements there are up to the front, and with the one at it.
    pub fn fetched(&self) -> u64
        ensures { result ≡ Fronts.fetched self.now }
    {
        if self.element.is_none() {
            self.passed
        } else {
            self.passed.saturating_add(1)
        }
    }
}
