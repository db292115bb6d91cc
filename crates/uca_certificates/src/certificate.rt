//! `Certificate`: a certificate in memory, which is a map of weights for each level.

use std::alloc::{Allocator, Global};
use std::marker::Model;
use uca_weights::WeightMap;

/// How the weights of a base change in a tailored table: a map for each level. The levels of the three are `One`,
/// `Two` and `Three`.
#[derive(Drop)]
pub struct Certificate<A: Allocator = Global> {
    /// The map of level 1.
    pub primary: WeightMap<A>,
    /// The map of level 2.
    pub secondary: WeightMap<A>,
    /// The map of level 3.
    pub tertiary: WeightMap<A>,
}

impl<A: Allocator> Model for Certificate<A> {
    ghost use Rattle.std.specs.Prelude.{◌≡◌};
    ghost use Rattle.uca_weights.specs.declared.Level.TheVariants.{One, Two, Three};
    ghost use Rattle.uca_certificates.specs.Certificates.{CertificateContent, IsCertificate};

    ghost Value = { CertificateContent };

    ghost view = { λ c. record { primary = c.primary.runs; secondary = c.secondary.runs; tertiary = c.tertiary.runs } };

    ghost invariant = { λ c. (c.primary.level ≡ One) × (c.secondary.level ≡ Two) × (c.tertiary.level ≡ Three)
        × IsCertificate (record { primary = c.primary.runs; secondary = c.secondary.runs; tertiary = c.tertiary.runs }) };
}
