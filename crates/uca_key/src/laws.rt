//! What is true of the keys of all texts, and of texts that are read code point by code point. The functions do nothing:
//! their contracts are the laws.

pub use uca_order::laws::{
    canonically_equivalent_texts_have_equal_keys, counts_are_exact, finds_completely_ignorable,
    identical_keys_are_of_equivalent_texts, keys_are_short, keys_compare_as_elements,
    keys_compare_as_texts, rows_are_short, stored_keys_compare_as_elements,
    stored_keys_compare_as_texts, weights_may_be_streamed, worked_comparisons, worked_keys,
    worked_texts,
};
pub use uca_plain::laws::{plain_points_cut_texts, plain_texts_read_by_points};
