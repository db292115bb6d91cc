//! The weights that the base gives the tailored table.

ghost use Rattle.std.specs.Prelude.{◌≡◌, ◌↔◌, ◌⊎◌, ℕ, List, [], ◌∷◌, ◌++◌, IfOk};
ghost use Rattle.uca_weights.specs.declared.Element.{Element};
ghost use Rattle.uca_weights.specs.declared.Level.{Level};
ghost use Rattle.uca_weights.specs.Runs.{weight_image};
ghost use Rattle.uca_check.specs.WellFormed.{elements_of};
ghost use Rattle.uca_tailorings.specs.Tailorings.{IsPairWeight};
ghost use Rattle.uca_tailorings.specs.Inputs.{maps_of};
ghost use Rattle.uca_audit.specs.inside.Views.{tailoring_in};
ghost use Rattle.uca_audit.specs.inside.WeightSets.{HasWeight};
ghost use Rattle.uca_audit.specs.inside.KnownWeights.{HoldsImages, IsImageOf};
ghost use Rattle.uca_audit.specs.inside.NewWeights.{HoldsKnown};

use crate::inputs::Inputs;
use crate::weight_sets::WeightSet;
use std::alloc::{AllocError, Allocator};
use uca_images::{Images, LevelImages};
use uca_values::Row;
use uca_weights::{Element, Level};

/// The images of the base's weights other than 0, and the weights of implicit weights at levels 2 and 3.
pub(crate) fn known_weights<A: Allocator + Copy, T: Allocator>(
    alloc: A,
    inputs: &Inputs<T>,
    images: &Images<A, T>,
) -> Result<WeightSet<A>, AllocError>
    requires { images.now ≡ inputs.now.certificate.now }
    ensures { IfOk result (HoldsKnown (tailoring_in inputs.now)) }
{
    let mut known = pair_weights(alloc)?;
    let base = inputs.base;
    add_images(&mut known, images, &base.rows);
    Ok(known)
}

/// The weights that implicit weights have at levels 2 and 3.
fn pair_weights<A: Allocator + Copy>(alloc: A) -> Result<WeightSet<A>, AllocError>
    ensures { IfOk result (λ set. (level : Level) (w : ℕ) → HasWeight set level w ↔ IsPairWeight level w) }
{
    let mut pairs = WeightSet::new(alloc)?;
    pairs.insert(Level::Two, 0x20);
    pairs.insert(Level::Three, 2);
    Ok(pairs)
}

/// Puts the images of the weights of all rows in.
fn add_images<A: Allocator + Copy, T: Allocator>(
    known: &mut WeightSet<A>,
    images: &Images<A, T>,
    rows: &[Row<T>],
)
    requires { HoldsImages (maps_of images.now) [] known.old }
    ensures { HoldsImages (maps_of images.now) (elements_of rows.now) known.new }
{
    for row in rows {
        for element in &row.elements {
            add_element(known, images, *element);
        }
    }
}

/// Puts the images of the weights of an element in.
fn add_element<A: Allocator + Copy, T: Allocator>(
    known: &mut WeightSet<A>,
    images: &Images<A, T>,
    element: Element,
)
    ensures { (elements : List Element) → HoldsImages (maps_of images.now) elements known.old →
        HoldsImages (maps_of images.now) (elements ++ element ∷ []) known.new }
{
    add_image(known, Level::One, &images.primary, element.primary);
    add_image(known, Level::Two, &images.secondary, element.secondary);
    add_image(known, Level::Three, &images.tertiary, element.tertiary);
}

/// Puts the image of a weight in, if the weight is not 0 and has one.
fn add_image<A: Allocator + Copy, T: Allocator>(
    known: &mut WeightSet<A>,
    level: Level,
    images: &LevelImages<A, T>,
    weight: u16,
)
    ensures { (l : Level) (w : ℕ) → HasWeight known.new l w
        ↔ (((l ≡ level) × IsImageOf (weight_image images.now.level images.now.runs) weight w) ⊎ HasWeight known.old l w) }
{
    if weight == 0 {
        return;
    }
    if let Some(image) = images.get(weight) {
        known.insert(level, image);
    }
}
