//! `KeySet`: a set of keys, in which a key is found code point by code point.
ghost use Rattle.std.specs.Prelude.{◌≡◌, ℕ, false, List, [], ◌∷◌, ◌++◌, MatchOption, unwrap_or};
ghost use Rattle.uca_elements.specs.Rows.{Keys, is_key};
ghost use Rattle.uca_elements.specs.Lookups.{BeginsKeyIn, BeginsNoKeyIn};

use crate::Lookup;
use uca_weights::Element;

/// What texts are matched against: a finite set of keys, which are lists of code points, in which a key is
/// found code point by code point.
///
/// A node stands for the list of code points that led to it. Nodes of one value mean nothing to another.
pub trait KeySet {
    /// A list of code points with which some key begins, or the empty list.
    type Node: Copy;

    ghost keys: { Self → Keys };

    ghost stands_for: { Self → Self.Node → List ℕ → Type 0 };

    /// The node of the empty list.
    fn root(&self) -> Self::Node
        ensures { stands_for self.now result [] };

    /// The node of the list that `node` stands for followed by `c`: there is one exactly if some key
    /// begins with that list.
    fn step(&self, node: Self::Node, c: char) -> Option<Self::Node>
        requires { (key : List ℕ) × stands_for self.now node key }
        ensures { (key : List ℕ) → stands_for self.now node key →
            MatchOption result (BeginsNoKeyIn (keys self.now) (key ++ c ∷ []))
            (λ next. BeginsKeyIn (keys self.now) (key ++ c ∷ []) × stands_for self.now next (key ++ c ∷ [])) };

    /// Whether the list that `node` stands for is a key.
    fn is_key(&self, node: Self::Node) -> bool
        requires { (key : List ℕ) × stands_for self.now node key }
        ensures { (key : List ℕ) → stands_for self.now node key → result ≡ keys self.now key };

    /// Whether some key may begin with the list that `node` stands for and be longer. It is asked for speed alone: `true`
    /// says nothing.
    fn may_go_on(&self, node: Self::Node) -> bool
        requires { (key : List ℕ) × stands_for self.now node key }
        ensures { (key : List ℕ) → stands_for self.now node key → result ≡ false →
            (c : ℕ) → BeginsNoKeyIn (keys self.now) (key ++ c ∷ []) };
}

/// The keys of a lookup.
#[derive(Drop)]
pub struct LookupKeys<'a, L: Lookup> {
    /// The lookup.
    pub lookup: &'a L,
}

impl<'a, L: Lookup> KeySet for LookupKeys<'a, L> {
    type Node = L::Node;

    ghost keys = { λ s. is_key (L.content s.lookup.now) };

    ghost stands_for = { λ s node key. L.stands_for s.lookup.now node key };

    fn root(&self) -> L::Node {
        self.lookup.root()
    }

    fn step(&self, node: L::Node, c: char) -> Option<L::Node> {
        self.lookup.step(node, c)
    }

    fn is_key(&self, node: L::Node) -> bool {
        self.lookup.elements(node).is_some()
    }

    fn may_go_on(&self, node: L::Node) -> bool {
        self.lookup.may_go_on(node)
    }
}

/// The elements of the list that `node` stands for, borrowed, or `None` if it is not a key.
pub fn row_at<'a, L: Lookup>(lookup: &'a L, node: L::Node) -> &'a [Element]
    requires { (key : List ℕ) × L.stands_for lookup.now node key }
    ensures { (key : List ℕ) → L.stands_for lookup.now node key → result.now ≡ unwrap_or (L.content lookup.now key) [] }
{
    match lookup.elements(node) {
        Some(row) => row,
        None => &[],
    }
}
