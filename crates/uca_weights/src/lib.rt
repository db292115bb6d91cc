//! What every crate of `uca` shares: collation elements, the levels, strengths,
//! weightings and depths of UTS #10, and rising maps of weights. It also has the streams that bytes come from and go
//! to, and the texts of errors.
#![tactic(auto)]

ghost use Rattle.std.specs.Prelude.{◌≡◌, IfSome, IfNone};
ghost use Rattle.uca_weights.specs.AskedSettings.{as_text, settings_by};
ghost use Rattle.uca_weights.specs.WeightingText.{weighting_text, IsNoWeighting};

mod maps;
mod messages;
mod streams;

pub use maps::{
    MapFault, MapFaultKind, Run, WeightMap, faulty_runs_are_not_proper, proper_runs_rise,
    runs_that_stay_keep_weights,
};
pub use messages::Message;
pub use streams::{ReadFault, Sink, Source, WriteFault};

/// A collation element (UTS #10, section 3.1): a weight for each of three levels, each 16 bits wide,
/// and whether the element is variable. A weight of 0 says that the element is ignored at that level.
#[derive(Clone, Copy, Debug, PartialEq, Eq)]
pub struct Element {
    /// The weight at level 1.
    pub primary: u16,
    /// The weight at level 2.
    pub secondary: u16,
    /// The weight at level 3.
    pub tertiary: u16,
    /// Whether the element is variable (UTS #10, section 4), written `*` in a table.
    pub mark: bool,
}

/// A level at which table weights are compared (UTS #10, section 1.1).
#[derive(Clone, Copy, Debug, PartialEq, Eq)]
pub enum Level {
    /// Base letters.
    One,
    /// Accents.
    Two,
    /// Case and variants.
    Three,
}

/// How strongly a tailored text differs from its anchor (UTS #35 Part 5, section 3.3).
#[derive(Clone, Copy, Debug, PartialEq, Eq)]
pub enum Strength {
    /// `<`: the texts differ at level 1.
    Primary,
    /// `<<`: the texts differ at level 2.
    Secondary,
    /// `<<<`: the texts differ at level 3.
    Tertiary,
    /// `=`: the texts differ at no level.
    Identical,
}

/// How variable elements are weighted (UTS #10, section 4).
#[derive(Clone, Copy, Debug, PartialEq, Eq)]
pub enum Weighting {
    /// Variable elements are weighted as all others are; there are three levels.
    NonIgnorable,
    /// Variable elements count only at a fourth level; there are four levels.
    Shifted,
}

/// How far two texts are compared (UTS #10, section 1.1).
#[derive(Clone, Copy, Debug, PartialEq, Eq)]
pub enum Depth {
    /// By their weights alone: texts with the same weights are equal.
    Weights,
    /// By their weights. If these are the same, by one more level: the code points of their
    /// Normalization Form D. Only canonically equivalent texts are equal.
    Identical,
}

/// How the numbers of texts compare. A number is a row of digits U+0030 to U+0039.
#[derive(Clone, Copy, Debug, PartialEq, Eq)]
pub enum Numbers {
    /// As any other text, digit by digit: `file 10` comes before `file 9`.
    AsText,
    /// By their values: `file 9` comes before `file 10`. The table has to order numbers: each digit has a row of one
    /// element that is not variable, their primary weights rise, and no other key has a digit.
    ByValue,
}

/// What decides how texts compare, beside a table and a data file. Keys give the order of their texts only among keys of
/// the same settings, the same table and the same data file, so store the settings with the keys.
#[derive(Clone, Copy, Debug, PartialEq, Eq)]
pub struct Settings {
    /// How variable elements, such as spaces and punctuation, are weighted (UTS #10, section 4). `NonIgnorable`
    /// compares them as all others, at three levels. `Shifted` compares them only at a fourth level.
    pub weighting: Weighting,
    /// How far texts are compared. `Weights`: by these levels alone, so that some different texts are equal.
    /// `Identical`: by one more level, that of the code points, so that only canonically equivalent texts are equal.
    pub depth: Depth,
    /// How their numbers compare. `AsText`: digit by digit. `ByValue`: as numbers. Leading zeros count at the depth
    /// `Identical` alone then.
    pub numbers: Numbers,
}

/// Settings that are asked for. They become [`Settings`] by a table, which may have a weighting of its own.
#[derive(Clone, Copy, Debug, PartialEq, Eq)]
pub struct Asked {
    /// The weighting. `None` stands for that of the table's `@variable`, or else for `Shifted`.
    pub weighting: Option<Weighting>,
    /// How far texts are compared.
    pub depth: Depth,
    /// How their numbers compare.
    pub numbers: Numbers,
}

impl Asked {
    /// What is asked for where numbers compare as any other text.
    pub fn as_text(weighting: Option<Weighting>, depth: Depth) -> Asked
        ensures { result ≡ as_text weighting depth }
    {
        Asked {
            weighting,
            depth,
            numbers: Numbers::AsText,
        }
    }

    /// The settings of keys under a table with this `@variable`, or with none. The weighting is the one that is asked for,
    /// or else that of the table, or else `Shifted` (UTS #10, section 4).
    pub fn settings(self, of_table: Option<Weighting>) -> Settings
        ensures { result ≡ settings_by self of_table }
    {
        Settings {
            weighting: self.weighting.or(of_table).unwrap_or(Weighting::Shifted),
            depth: self.depth,
            numbers: self.numbers,
        }
    }
}

impl Weighting {
    /// Its name, as it is written after `@variable` in a table and after `--weighting`.
    pub fn name(self) -> &'static str
        ensures { result.now ≡ weighting_text self }
    {
        match self {
            Weighting::NonIgnorable => "non-ignorable",
            Weighting::Shifted => "shifted",
        }
    }

    /// The weighting with this name, or `None` if neither of the two has it.
    pub fn from_name(word: &[u8]) -> Option<Weighting>
        ensures known { IfSome result (λ weighting. word.now ≡ weighting_text weighting) }
        ensures unknown { IfNone result (IsNoWeighting word.now) }
    {
        if word == Weighting::NonIgnorable.name().as_bytes() {
            return Some(Weighting::NonIgnorable);
        }
        if word == Weighting::Shifted.name().as_bytes() {
            return Some(Weighting::Shifted);
        }
        None
    }
}
