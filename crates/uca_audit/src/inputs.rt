//! `Inputs`: the tables, the data file, the rules and the certificate that an audit is given.

use crate::Certificate;
use std::alloc::Allocator;
use uca_relations::Rules;
use uca_values::{Data, Table};

/// What an audit is given.
#[derive(Drop)]
pub(crate) struct Inputs<'a, T: Allocator> {
    /// The base.
    pub base: &'a Table<T>,
    /// The combining classes and the Han ranges of code points.
    pub properties: &'a Data<T>,
    /// The rules.
    pub rules: &'a Rules<T>,
    /// The table that is tailored from the base.
    pub tailored: &'a Table<T>,
    /// The images of the base's weights.
    pub certificate: &'a Certificate<T>,
}
