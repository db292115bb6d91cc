//! `Lookup`: a map from keys to collation elements, in which a key is found code point by code point.
//!
//! Two of its methods only save time. Where `may_go_on` is false, the search for the longest key ends. Where
//! `may_follow` is false of a code point, a text may be cut before it.
ghost use Rattle.std.specs.Prelude.{◌≡◌, ℕ, false, List, [], ◌∷◌, ◌++◌, Option, Some, None, MatchOption};
ghost use Rattle.uca_weights.specs.declared.Element.{Element};
ghost use Rattle.uca_elements.specs.Rows.{is_key};
ghost use Rattle.uca_elements.specs.Lookups.{BeginsSomeKey, BeginsNoKey};
ghost use Rattle.uca_elements.specs.Cuts.{IsNoFollower};

use uca_weights::Element;

/// A finite map from keys, which are lists of code points, to collation elements, in which a key is
/// found code point by code point.
///
/// A node stands for the list of code points that led to it. Nodes of one value mean nothing to another.
pub trait Lookup {
    /// A list of code points with which some key begins, or the empty list.
    type Node: Copy;

    ghost content: { Self → List ℕ → Option (List Element) };

    ghost stands_for: { Self → Self.Node → List ℕ → Type 0 };

    /// The node of the empty list.
    fn root(&self) -> Self::Node
        ensures { stands_for self.now result [] };

    /// The node of the list that `node` stands for followed by `c`: there is one exactly if some key
    /// begins with that list.
    fn step(&self, node: Self::Node, c: char) -> Option<Self::Node>
        requires { (key : List ℕ) × stands_for self.now node key }
        ensures { (key : List ℕ) → stands_for self.now node key →
            MatchOption result (BeginsNoKey (content self.now) (key ++ c ∷ []))
            (λ next. BeginsSomeKey (content self.now) (key ++ c ∷ []) × stands_for self.now next (key ++ c ∷ [])) };

    /// The elements of the list that `node` stands for, borrowed: there are some exactly if it is a key.
    fn elements(&self, node: Self::Node) -> Option<&[Element]>
        requires { (key : List ℕ) × stands_for self.now node key }
        ensures { (key : List ℕ) → stands_for self.now node key →
            MatchOption result (content self.now key ≡ None) (λ row. content self.now key ≡ Some row.now) };

    /// Whether some key may begin with the list that `node` stands for and be longer. It is asked for speed alone:
    /// `true` says nothing, and is what a lookup returns that has no better method.
    fn may_go_on(&self, node: Self::Node) -> bool
        requires { (key : List ℕ) × stands_for self.now node key }
        ensures { (key : List ℕ) → stands_for self.now node key → result ≡ false →
            (c : ℕ) → BeginsNoKey (content self.now) (key ++ c ∷ []) }
    {
        let _ = node;
        true
    }

    /// Whether some key may have `c` after its first code point. It is asked for speed alone: `true` says nothing, and is
    /// what a lookup returns that has no better method.
    fn may_follow(&self, c: char) -> bool
        ensures { result ≡ false → IsNoFollower (is_key (content self.now)) c }
    {
        let _ = c;
        true
    }
}

/// The elements of a key, borrowed from the lookup, or `None` if the list is not a key.
pub fn row_of<'a, L: Lookup>(lookup: &'a L, key: &[char]) -> Option<&'a [Element]>
    ensures { MatchOption result (L.content lookup.now key.now ≡ None)
        (λ row. L.content lookup.now key.now ≡ Some row.now) }
{
    let mut node = lookup.root();
    for point in key {
        node = lookup.step(node, *point)?;
    }
    lookup.elements(node)
}
