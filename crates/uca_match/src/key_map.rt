//! `KeyMap`: keys and their positions in a list, as a tree of code points.
//!
//! The nodes of the tree are in one vector, and their positions there are their names. Each node has its edges in the
//! order of their code points. If the way to a node is a key, the node has the key's position.
//!
//! Keys of one code point are added first, which needs no search. The others are sorted before they are added, so
//! that a new edge always comes last at its node. In Unicode's table these are 900 of 33,000. Nothing that is proved
//! rests on that order: an edge is put where it belongs, wherever that is.
//!
//! An edge is found by halving the edges of its node. The root of a real table would have 30,000 edges. So it has
//! none: a `CharMap` says where each code point leads from there. Another one marks the code points that some key has
//! after its first one.
ghost use Rattle.std.specs.Prelude.{◌≡◌, ◌≢◌, ℕ, false, ◌<◌, ◌∷◌, ◌++◌, List, [], length, map, IfOk, OnOk, MatchResult, Some, None, ◌≤◌};
ghost use Rattle.std.specs.List.Sorted.{IsPartitionPoint};
ghost use Rattle.uca_elements.specs.Positions.{is_placed, place_at, AreDistinctKeys, AreLongKeys};
ghost use Rattle.uca_match.specs.Tries.{NodeContent, empty_node as leaf, target_of, tree_of, with_root, positions, walk, with_position, AreRisingEdges, IsNewPlace, IsTree, IsAlong, AreFollowers};
ghost use Rattle.uca_elements.specs.Cuts.{IsNoFollower};
ghost use Rattle.uca_match.specs.CharMaps.{number_of};
ghost use Rattle.uca_match.specs.NumberedKeys.{points_of, placed_of};

use crate::char_map::CharMap;
use std::alloc::{AllocError, Allocator, Global};
use std::cmp::Ordering;
use std::marker::Model;
use uca_elements::key_sets::KeySet;

/// Keys, which are lists of code points, and the position of each in a list of them, as a tree. From its root,
/// the code points of a key lead from node to node, and the last of these nodes has the position of the key.
///
/// The first step takes the same time for every list. A later one takes time in proportion to the logarithm of the number of
/// code points that may follow. Building takes about n log n steps for n keys of more than one code point, in any order. It takes
/// memory in proportion to the code points of all keys.
#[derive(Drop)]
pub struct KeyMap<A: Allocator = Global> {
    tree: Tree<A>,
    // 1 for each code point that some key has after its first one
    followers: CharMap<A>,
}

impl<A: Allocator> Model for KeyMap<A> {
    ghost use Rattle.uca_match.specs.CharMaps.{number_of};
    ghost use Rattle.uca_match.specs.Tries.{MapContent, tree_of, IsTrie};

    ghost Value = { MapContent };

    ghost view = { λ t. t.tree };

    ghost invariant = { λ t. IsTrie (tree_of t.tree) (number_of t.followers) };
}

/// The nodes of the tree.
#[derive(Drop)]
pub(crate) struct Tree<A: Allocator> {
    // where each code point leads from the root, or 0 if it leads nowhere
    root: CharMap<A>,
    // the first is the root, which has no edges here
    nodes: Vec<Node<A>, A>,
}

impl<A: Allocator> Model for Tree<A> {
    ghost use Rattle.uca_match.specs.Tries.{MapContent};

    ghost Value = { MapContent };

    ghost view = { λ t. record { root = t.root; nodes = t.nodes.items } };
}

/// What follows some code points with which a key begins.
#[derive(Drop)]
pub(crate) struct Node<A: Allocator> {
    // the code points that may follow, in rising order
    edges: Vec<Edge, A>,
    // the position of the code points, if they are a key
    position: Option<usize>,
}

impl<A: Allocator> Model for Node<A> {
    ghost use Rattle.uca_match.specs.Tries.{ListedNode, AreRisingEdges};

    ghost Value = { ListedNode };

    ghost view = { λ n. record { edges = n.edges.items; position = n.position } };

    ghost invariant = { λ n. AreRisingEdges n.edges.items };
}

/// A code point that may follow, and the number of the node to which it leads.
#[derive(Clone, Copy)]
pub(crate) struct Edge {
    pub(crate) point: char,
    pub(crate) target: usize,
}

/// Some code points with which a key begins, as the number of their node.
#[derive(Clone, Copy)]
pub struct TrieNode {
    number: usize,
}

impl<A: Allocator + Copy> KeyMap<A> {
    /// The map of these keys to their positions in the list. No two of the keys are the same.
    ///
    /// # Errors
    ///
    /// An allocation that fails.
    pub fn new(alloc: A, keys: &[&[char]]) -> Result<Self, AllocError>
        requires { AreDistinctKeys (points_of keys.now) }
        ensures { IfOk result (λ keymap. (key : List ℕ) → positions keymap key ≡ place_at 0 (points_of keys.now) key) }
    {
        let tree = key_tree(alloc, keys)?;
        match followers_of(alloc, &tree) {
            Ok(followers) => Ok(KeyMap { tree, followers }),
            Err(error) => Err(error),
        }
    }
}

impl<A: Allocator> KeyMap<A> {
    /// The position of a key, if the list has it.
    pub fn position(&self, key: &[char]) -> Option<usize>
        ensures { result ≡ positions self.now key.now }
    {
        let mut node = self.root();
        for point in key {
            node = self.step(node, *point)?;
        }
        self.position_at(node)
    }

    /// The position of the key that a node stands for, if it stands for one.
    pub(crate) fn position_at(&self, node: TrieNode) -> Option<usize>
        requires { (key : List ℕ) × (walk (tree_of self.now) 0 key ≡ Some node.number) }
        ensures { (key : List ℕ) → walk (tree_of self.now) 0 key ≡ Some node.number → result ≡ positions self.now key }
    {
        let tree = &self.tree;
        tree.nodes[node.number].position
    }

    /// Whether some key may have `c` after its first code point.
    pub(crate) fn may_follow(&self, c: char) -> bool
        ensures { result ≡ false → IsNoFollower (is_placed (positions self.now)) c }
    {
        self.followers.get(c) > 0
    }
}

/// The tree of all keys.
fn key_tree<A: Allocator + Copy>(alloc: A, keys: &[&[char]]) -> Result<Tree<A>, AllocError>
    requires { AreDistinctKeys (points_of keys.now) }
    ensures tree { IfOk result (λ tree. IsTree (tree_of tree)) }
    ensures positions { IfOk result (λ tree. (key : List ℕ) → positions tree key ≡ place_at 0 (points_of keys.now) key) }
{
    let mut tree = empty_tree(alloc)?;
    match add_keys(alloc, &mut tree, keys) {
        Ok(()) => Ok(tree),
        Err(error) => Err(error),
    }
}

/// Adds all keys to a root alone. Those of one code point need no search.
fn add_keys<A: Allocator + Copy>(
    alloc: A,
    tree: &mut Tree<A>,
    keys: &[&[char]],
) -> Result<(), AllocError>
    requires distinct { AreDistinctKeys (points_of keys.now) }
    requires leaf { tree_of tree.old ≡ leaf ∷ [] }
    ensures tree { OnOk result (IsTree (tree_of tree.new)) }
    ensures positions { OnOk result ((key : List ℕ) → positions tree.new key ≡ place_at 0 (points_of keys.now) key) }
{
    for position in 0..keys.len() {
        let key = keys[position];
        if key.len() == 1 {
            add_key(alloc, tree, key, position)?;
        }
    }
    for numbered in &long_keys(alloc, keys)? {
        add_key(alloc, tree, numbered.key, numbered.position)?;
    }
    Ok(())
}

/// The keys that are not one code point, with their positions, in the order of the keys, in which the edges of each node are
/// met in rising order. That order only saves time: the nodes are the same for the keys in any order.
fn long_keys<'a, A: Allocator>(
    alloc: A,
    keys: &[&'a [char]],
) -> Result<Vec<Numbered<'a>, A>, AllocError>
    ensures { IfOk result (λ list. AreLongKeys (points_of keys.now) (map placed_of list.items)) }
{
    let mut list = Vec::new(alloc);
    for position in 0..keys.len() {
        let key = keys[position];
        if key.len() == 1 {
            continue;
        }
        let head = key.first().copied();
        list.push(Numbered {
            head,
            position,
            key,
        })?;
    }
    list.sort_unstable_by(|left, right| left.order(right));
    Ok(list)
}

/// A key with its position, beside its first code point, which tells most keys apart without reading them.
#[derive(Drop)]
pub(crate) struct Numbered<'a> {
    pub(crate) head: Option<char>,
    pub(crate) position: usize,
    pub(crate) key: &'a [char],
}

impl<'a> Numbered<'a> {
    /// The order of the two keys.
    fn order(&self, other: &Numbered<'a>) -> Ordering {
        if self.head != other.head {
            return self.head.cmp(&other.head);
        }
        self.key.cmp(other.key)
    }
}

/// A node without edges that is not a key.
fn empty_node<A: Allocator>(alloc: A) -> Node<A>
    ensures { result ≡ record { edges = []; position = None } }
{
    Node {
        edges: Vec::new(alloc),
        position: None,
    }
}

/// A tree of a root alone, which is not a key.
fn empty_tree<A: Allocator + Copy>(alloc: A) -> Result<Tree<A>, AllocError>
    ensures { IfOk result (λ tree. tree_of tree ≡ leaf ∷ []) }
{
    let root = CharMap::new(alloc)?;
    let mut nodes = Vec::new(alloc);
    nodes.push(empty_node(alloc))?;
    Ok(Tree { root, nodes })
}

/// Adds the nodes of a key, as far as they are not there, and its position.
fn add_key<A: Allocator + Copy>(
    alloc: A,
    tree: &mut Tree<A>,
    key: &[char],
    position: usize,
) -> Result<(), AllocError>
    requires { IsTree (tree_of tree.old) }
    ensures tree { OnOk result (IsTree (tree_of tree.new)) }
    ensures key { OnOk result ((other : List ℕ) → positions tree.new other
        ≡ with_position (positions tree.old) (record { key = key.now; position = position }) other) }
{
    let mut number = 0;
    for point in key {
        number = next_node(alloc, tree, number, *point)?;
    }
    tree.nodes[number].position = Some(position);
    Ok(())
}

/// The node to which a code point leads from another node. It is added if it is not there.
fn next_node<A: Allocator + Copy>(
    alloc: A,
    tree: &mut Tree<A>,
    number: usize,
    point: char,
) -> Result<usize, AllocError>
    requires { (start : List NodeContent) × (front : List ℕ) × IsAlong start (tree_of tree.old) front number }
    ensures { (start : List NodeContent) (front : List ℕ) → IsAlong start (tree_of tree.old) front number →
        IfOk result (λ target. IsAlong start (tree_of tree.new) (front ++ point ∷ []) target) }
{
    if number == 0 {
        return first_node(alloc, tree, point);
    }
    add_step(alloc, &mut tree.nodes, number, point)
}

/// The node to which a code point leads from the root. It is added if it is not there.
fn first_node<A: Allocator + Copy>(
    alloc: A,
    tree: &mut Tree<A>,
    point: char,
) -> Result<usize, AllocError>
    requires { (start : List NodeContent) × (front : List ℕ) × IsAlong start (tree_of tree.old) front 0 }
    ensures { (start : List NodeContent) (front : List ℕ) → IsAlong start (tree_of tree.old) front 0 →
        IfOk result (λ target. IsAlong start (tree_of tree.new) (front ++ point ∷ []) target) }
{
    let known = tree.root.get(point);
    if known > 0 {
        return Ok(known);
    }
    let target = tree.nodes.len();
    tree.nodes.push(empty_node(alloc))?;
    tree.root.set(point, target)?;
    Ok(target)
}

/// The node to which a code point leads from a node other than the root. It is added if it is not there.
fn add_step<A: Allocator + Copy>(
    alloc: A,
    nodes: &mut Vec<Node<A>, A>,
    number: usize,
    point: char,
) -> Result<usize, AllocError>
    requires later { 0 < number }
    requires within { number < length nodes.old.items }
    ensures { (root : ℕ → ℕ) (start : List NodeContent) (front : List ℕ) → IsAlong start (with_root root nodes.old.items) front number →
        IfOk result (λ target. IsAlong start (with_root root nodes.new.items) (front ++ point ∷ []) target) }
{
    let at = match find(&nodes[number].edges, point) {
        Ok(target) => return Ok(target),
        Err(at) => at,
    };
    let target = nodes.len();
    nodes.push(empty_node(alloc))?;
    nodes[number].edges.insert(at, Edge { point, target })?;
    Ok(target)
}

/// Where a code point leads, or else the position where its edge would have to be.
fn find(edges: &[Edge], point: char) -> Result<usize, usize>
    requires { AreRisingEdges edges.now }
    ensures { MatchResult result (λ target. target_of edges.now point ≡ Some target) (IsNewPlace edges.now point) }
{
    let at = place(edges, point);
    if at < edges.len() && edges[at].point == point {
        Ok(edges[at].target)
    } else {
        Err(at)
    }
}

/// The position of the first edge whose code point is `point` or above it.
fn place(edges: &[Edge], point: char) -> usize
    requires { AreRisingEdges edges.now }
    ensures bound { result ≤ length edges.now }
    ensures place { IsPartitionPoint (λ e. e.point < point) (λ e. point ≤ e.point) edges.now result }
{
    edges.partition_point(|edge| edge.point < point)
}

/// 1 for each code point that leads from a node other than the root.
fn followers_of<A: Allocator + Copy>(alloc: A, tree: &Tree<A>) -> Result<CharMap<A>, AllocError>
    ensures { IfOk result (λ followers. AreFollowers (tree_of tree.now) (number_of followers)) }
{
    let nodes = tree.nodes.as_slice();
    let mut followers = CharMap::new(alloc)?;
    for i in 1..nodes.len() {
        let node = &nodes[i];
        add_followers(&mut followers, &node.edges)?;
    }
    Ok(followers)
}

/// Gives 1 to the code points of edges.
fn add_followers<A: Allocator>(followers: &mut CharMap<A>, edges: &[Edge]) -> Result<(), AllocError>
    ensures before { OnOk result ((c : ℕ) → 0 < number_of followers.old c → 0 < number_of followers.new c) }
    ensures edges { OnOk result ((c m : ℕ) → target_of edges.now c ≡ Some m → 0 < number_of followers.new c) }
{
    for edge in edges {
        followers.set(edge.point, 1)?;
    }
    Ok(())
}

impl<A: Allocator> KeySet for KeyMap<A> {
    type Node = TrieNode;

    ghost keys = { λ keymap. is_placed (positions keymap) };

    ghost stands_for = { λ keymap node key. walk (tree_of keymap) 0 key ≡ Some node.number };

    fn root(&self) -> TrieNode {
        TrieNode { number: 0 }
    }

    fn step(&self, node: TrieNode, c: char) -> Option<TrieNode> {
        let tree = &self.tree;
        if node.number == 0 {
            let number = tree.root.get(c);
            if number == 0 {
                return None;
            }
            return Some(TrieNode { number });
        }
        match find(&tree.nodes[node.number].edges, c) {
            Ok(number) => Some(TrieNode { number }),
            Err(_) => None,
        }
    }

    fn is_key(&self, node: TrieNode) -> bool {
        self.position_at(node).is_some()
    }

    fn may_go_on(&self, node: TrieNode) -> bool {
        if node.number == 0 {
            return true;
        }
        let tree = &self.tree;
        !tree.nodes[node.number].edges.is_empty()
    }
}
