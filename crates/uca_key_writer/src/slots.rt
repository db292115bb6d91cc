//! Slots for the weights of four levels, which are filled from the front.

ghost use Rattle.std.specs.Prelude.{◌≡◌, ℕ, ◌++◌, ◌∷◌, [], ◌+◌, ◌<◌, ◌≤◌, ◌==◌, Bool, List, length, OnOk, vec_len, if◌then◌else◌};
ghost use Rattle.uca_weights.specs.declared.Element.{Element};
ghost use Rattle.uca_order.specs.Levels.{weight_bytes};
ghost use Rattle.uca_key_writer.specs.inside.LevelBuffers.{held, levels_of, HasRoom, IsNextFlag, HoldsLevels};

use std::alloc::{AllocError, Allocator};
use uca_order::weighting::{is_after_variable, weights_of};
use uca_weights::{Element, Weighting};

/// How many weights each level has.
#[derive(Clone, Copy)]
pub(crate) struct Counts {
    pub(crate) primary: usize,
    pub(crate) secondary: usize,
    pub(crate) tertiary: usize,
    pub(crate) quaternary: usize,
}

/// No level has a weight.
pub(crate) const NO_WEIGHTS: Counts = Counts {
    primary: 0,
    secondary: 0,
    tertiary: 0,
    quaternary: 0,
};

// Makes room for more weights after the first `count`.
#[inline]
fn make_room<A: Allocator>(
    slots: &mut Vec<[u8; 2], A>,
    count: usize,
    more: usize,
) -> Result<(), AllocError>
    requires { count ≤ vec_len slots.old }
    ensures held { held slots.new.items count ≡ held slots.old.items count }
    ensures count { count ≤ vec_len slots.new }
    ensures room { OnOk result (count + more ≤ vec_len slots.new) }
{
    if slots.len() - count < more {
        lengthen(slots, more)?;
    }
    Ok(())
}

/// Makes room for more weights at each level.
#[inline(always)]
pub(crate) fn make_rooms<A: Allocator>(
    counts: Counts,
    more: usize,
    primary: &mut Vec<[u8; 2], A>,
    secondary: &mut Vec<[u8; 2], A>,
    tertiary: &mut Vec<[u8; 2], A>,
    quaternary: &mut Vec<[u8; 2], A>,
) -> Result<(), AllocError>
    requires { HasRoom 0 counts primary.old.items secondary.old.items tertiary.old.items quaternary.old.items }
    ensures same { (flag : Bool) (key : List ℕ) → levels_of flag counts primary.new.items secondary.new.items tertiary.new.items quaternary.new.items key
        ≡ levels_of flag counts primary.old.items secondary.old.items tertiary.old.items quaternary.old.items key }
    ensures counts { HasRoom 0 counts primary.new.items secondary.new.items tertiary.new.items quaternary.new.items }
    ensures room { OnOk result (HasRoom more counts primary.new.items secondary.new.items tertiary.new.items quaternary.new.items) }
{
    make_room(primary, counts.primary, more)?;
    make_room(secondary, counts.secondary, more)?;
    make_room(tertiary, counts.tertiary, more)?;
    make_room(quaternary, counts.quaternary, more)
}

// Adds so many slots, and at least as many as there are. It stands apart, so that what `make_room` inlines stays small.
#[cold]
#[inline(never)]
fn lengthen<A: Allocator>(slots: &mut Vec<[u8; 2], A>, more: usize) -> Result<(), AllocError>
    ensures held { (count : ℕ) → count ≤ vec_len slots.old → held slots.new.items count ≡ held slots.old.items count }
    ensures len { vec_len slots.old ≤ vec_len slots.new }
    ensures room { OnOk result (vec_len slots.old + more ≤ vec_len slots.new) }
{
    let len = slots.len();
    let Some(wanted) = len.checked_add(more.max(len)) else {
        return Err(AllocError);
    };
    slots.resize(wanted, [0; 2])
}

// Puts a weight after the first `count`, where 0 says that there is none. Returns how many weights there are then. A 0 is
// written too, and is not counted: no processor foretells which weights are 0.
#[inline(always)]
fn put(slots: &mut [[u8; 2]], count: usize, weight: u16) -> usize
    requires { count < length slots.old }
    ensures held { held slots.new result ≡ held slots.old count ++ (if weight == 0 then [] else weight_bytes weight) }
    ensures count { result ≤ count + 1 }
{
    slots[count] = weight.to_be_bytes();
    if weight == 0 { count } else { count + 1 }
}

// Whether the nearest element with a primary weight is variable, which only `Shifted` asks.
#[inline(always)]
fn next_flag(weighting: Weighting, after_variable: bool, element: Element) -> bool
    ensures { IsNextFlag weighting after_variable element result }
{
    match weighting {
        Weighting::NonIgnorable => after_variable,
        Weighting::Shifted => is_after_variable(after_variable, element),
    }
}

// Puts the weights of the next element.
#[inline(always)]
fn put_element(
    weighting: Weighting,
    element: &Element,
    after_variable: &mut bool,
    counts: Counts,
    primary: &mut [[u8; 2]],
    secondary: &mut [[u8; 2]],
    tertiary: &mut [[u8; 2]],
    quaternary: &mut [[u8; 2]],
) -> Counts
    requires { HasRoom 1 counts primary.old secondary.old tertiary.old quaternary.old }
    ensures room { (n : ℕ) → HasRoom (n + 1) counts primary.old secondary.old tertiary.old quaternary.old →
        HasRoom n result primary.new secondary.new tertiary.new quaternary.new }
    ensures holds { (key : List ℕ) (es : List Element) →
        HoldsLevels weighting es (levels_of after_variable.old counts primary.old secondary.old tertiary.old quaternary.old key) →
        HoldsLevels weighting (es ++ element.now ∷ []) (levels_of after_variable.new result primary.new secondary.new tertiary.new quaternary.new key) }
{
    // Each weight is read alone, for a copy of the whole element takes longer to part.
    let element = Element {
        primary: element.primary,
        secondary: element.secondary,
        tertiary: element.tertiary,
        mark: element.mark,
    };
    let flag = *after_variable;
    let [first, second, third, fourth] = weights_of(weighting, flag, element);
    *after_variable = next_flag(weighting, flag, element);
    Counts {
        primary: put(primary, counts.primary, first),
        secondary: put(secondary, counts.secondary, second),
        tertiary: put(tertiary, counts.tertiary, third),
        // `NonIgnorable` has no weights of level 4, so no slot is written for it
        quaternary: if fourth == 0 {
            counts.quaternary
        } else {
            put(quaternary, counts.quaternary, fourth)
        },
    }
}

/// Puts the weights of the next elements, for which there is room.
#[inline(always)]
pub(crate) fn put_elements(
    weighting: Weighting,
    elements: &[Element],
    after_variable: &mut bool,
    mut counts: Counts,
    primary: &mut [[u8; 2]],
    secondary: &mut [[u8; 2]],
    tertiary: &mut [[u8; 2]],
    quaternary: &mut [[u8; 2]],
) -> Counts
    requires { HasRoom (length elements.now) counts primary.old secondary.old tertiary.old quaternary.old }
    ensures room { (n : ℕ) → HasRoom (n + length elements.now) counts primary.old secondary.old tertiary.old quaternary.old →
        HasRoom n result primary.new secondary.new tertiary.new quaternary.new }
    ensures holds { (key : List ℕ) (es : List Element) →
        HoldsLevels weighting es (levels_of after_variable.old counts primary.old secondary.old tertiary.old quaternary.old key) →
        HoldsLevels weighting (es ++ elements.now) (levels_of after_variable.new result primary.new secondary.new tertiary.new quaternary.new key) }
{
    for element in elements {
        counts = put_element(
            weighting,
            element,
            after_variable,
            counts,
            primary,
            secondary,
            tertiary,
            quaternary,
        );
    }
    counts
}
