//! The images of all weights, each found in one step. The maps of a certificate are written out once, as a list of
//! 65,536 images for each level (`Images`). So a weight of a row costs one step, whatever the runs are.
//!
//! An image has 16 bits. 0 says that a weight has none: only the weight 0 has the image 0.

ghost use Rattle.std.specs.Prelude.{◌≡◌, IfOk};
ghost use Rattle.uca_weights.specs.Runs.{AreProperRuns, weight_image};
ghost use Rattle.uca_tailorings.specs.Inputs.{maps_of};
ghost use Rattle.uca_images.specs.inside.ImageTables.{AreLevelTables, IsImageEntry, IsImageTable};

use std::alloc::{AllocError, Allocator};
use std::marker::Model;
use uca_certificates::Certificate;
use uca_weights::WeightMap;

/// How many weights of 16 bits there are.
const WEIGHT_COUNT: usize = 0x1_0000;

/// A level's weight map as an array: `get` is O(1).
#[derive(Drop)]
pub struct LevelImages<'a, A: Allocator, T: Allocator> {
    /// The map.
    map: &'a WeightMap<T>,
    /// The image of each weight, 0 if it has none.
    images: Vec<u16, A>,
}

impl<'a, A: Allocator, T: Allocator> Model for LevelImages<'a, A, T> {
    ghost use Rattle.uca_weights.specs.Runs.{MapContent, weight_image};
    ghost use Rattle.uca_images.specs.inside.ImageTables.{IsImageTable};

    ghost Value = { MapContent };

    ghost view = { λ s. s.map.now };

    ghost invariant = { λ s. IsImageTable (weight_image s.map.now.level s.map.now.runs) s.images.items };
}

impl<'a, A: Allocator + Copy, T: Allocator> LevelImages<'a, A, T> {
    /// The image of a weight, or `None` if it has none.
    pub fn get(&self, weight: u16) -> Option<u16>
        ensures { result ≡ weight_image self.now.level self.now.runs weight }
    {
        let image = self.images[usize::from(weight)];
        if image == 0 && weight != 0 {
            return None;
        }
        Some(image)
    }
}

/// The weight maps of a certificate as arrays, one for each level: looking up an image takes one step.
#[derive(Drop)]
pub struct Images<'a, A: Allocator, T: Allocator> {
    /// The images at level 1.
    pub primary: LevelImages<'a, A, T>,
    /// The images at level 2.
    pub secondary: LevelImages<'a, A, T>,
    /// The images at level 3.
    pub tertiary: LevelImages<'a, A, T>,
}

impl<'a, A: Allocator, T: Allocator> Model for Images<'a, A, T> {
    ghost use Rattle.std.specs.Prelude.{◌≡◌};
    ghost use Rattle.uca_weights.specs.declared.Level.TheVariants.{One, Two, Three};
    ghost use Rattle.uca_certificates.specs.Certificates.{CertificateContent};

    ghost Value = { CertificateContent };

    ghost view = { λ s. record { primary = s.primary.runs; secondary = s.secondary.runs; tertiary = s.tertiary.runs } };

    ghost invariant = { λ s. (s.primary.level ≡ One) × (s.secondary.level ≡ Two) × (s.tertiary.level ≡ Three) };
}

impl<'a, A: Allocator + Copy, T: Allocator> Images<'a, A, T> {
    /// The images of all weights under the maps of a certificate. An error means that it ran out of memory.
    pub fn new(alloc: A, certificate: &'a Certificate<T>) -> Result<Images<'a, A, T>, AllocError>
        ensures { IfOk result (λ images. images ≡ certificate.now) }
    {
        match tables_of(alloc, certificate) {
            Ok(tables) => Ok(Images {
                primary: LevelImages {
                    map: &certificate.primary,
                    images: tables.primary,
                },
                secondary: LevelImages {
                    map: &certificate.secondary,
                    images: tables.secondary,
                },
                tertiary: LevelImages {
                    map: &certificate.tertiary,
                    images: tables.tertiary,
                },
            }),
            Err(error) => Err(error),
        }
    }
}

/// The images of all weights under the three maps of a certificate.
#[derive(Drop)]
pub(crate) struct LevelTables<A: Allocator> {
    pub(crate) primary: Vec<u16, A>,
    pub(crate) secondary: Vec<u16, A>,
    pub(crate) tertiary: Vec<u16, A>,
}

/// The images of all weights under the maps of a certificate. An error means that it ran out of memory.
pub(crate) fn tables_of<A: Allocator + Copy, T: Allocator>(
    alloc: A,
    certificate: &Certificate<T>,
) -> Result<LevelTables<A>, AllocError>
    ensures { IfOk result (λ tables. AreLevelTables (maps_of certificate.now) tables.primary.items tables.secondary.items tables.tertiary.items) }
{
    Ok(LevelTables {
        primary: images_of(alloc, &certificate.primary)?,
        secondary: images_of(alloc, &certificate.secondary)?,
        tertiary: images_of(alloc, &certificate.tertiary)?,
    })
}

// The image of each weight under a map, in order, with 0 for those that have none. An error means that it ran out of memory.
fn images_of<A: Allocator + Copy, T: Allocator>(
    alloc: A,
    map: &WeightMap<T>,
) -> Result<Vec<u16, A>, AllocError>
    requires { AreProperRuns map.now.level map.now.runs }
    ensures { IfOk result (λ images. IsImageTable (weight_image map.now.level map.now.runs) images.items) }
{
    let mut images = Vec::with_capacity(alloc, WEIGHT_COUNT)?;
    for weight in 0..WEIGHT_COUNT {
        images.push(image_or_zero(map, weight as u16))?;
    }
    Ok(images)
}

// The image of a weight, or 0 if it has none. No other weight than 0 has the image 0.
fn image_or_zero<T: Allocator>(map: &WeightMap<T>, weight: u16) -> u16
    requires { AreProperRuns map.now.level map.now.runs }
    ensures { IsImageEntry (weight_image map.now.level map.now.runs) weight result }
{
    map.get(weight).unwrap_or(0)
}
