//! What is true of all texts.
ghost use Rattle.uca_text.specs.Laws.{CanonicallyEquivalentTextsAreNormalizedAlike};

/// Canonically equivalent texts (The Unicode Standard, section 3.7) have the same code points in Normalization
/// Form D and the same classes. The function does nothing: its contract is the law.
pub fn canonically_equivalent_texts_are_normalized_alike()
    ensures { CanonicallyEquivalentTextsAreNormalizedAlike }
{}
