//! Texts for collation: code points in Normalization Form D (UAX #15), each with its canonical combining class (UAX
//! #44), within fixed limits on length and on runs of non-starters. `normal` makes such a text. `occurs_in_order` looks
//! for some code points in others.
#![tactic(auto)]

mod decompositions;
mod in_order;
mod laws;
mod normal_text;
mod normalize;

pub use decompositions::decompose;
pub use in_order::occurs_in_order;
pub use laws::canonically_equivalent_texts_are_normalized_alike;
pub use normal_text::Normal;
pub use normalize::{TextFault, normal};
