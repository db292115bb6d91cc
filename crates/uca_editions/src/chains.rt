//! Chains of moves. In a chain each move has greater weights than the one before, on both sides. Of all such chains the
//! maker takes one with most votes. A tree over the new weights has the heaviest chain that ends in each range of them.

use crate::moves::Move;
use std::alloc::{AllocError, Allocator};

/// How many weights of 16 bits there are.
const WEIGHT_COUNT: usize = 0x1_0000;

/// The node of all weights.
const ROOT: usize = 1;

/// How many nodes there are from the leaf of a weight up to the root.
const TREE_DEPTH: usize = 17;

/// A move with how many rows have it, and the move before it in the heaviest chain that ends with it.
#[derive(Clone, Copy)]
pub(crate) struct Step {
    /// The move.
    pub(crate) is: Move,
    /// How often it occurs.
    votes: u64,
    /// The number of the step before it, counted from 1; 0 if there is none.
    before: usize,
}

/// A chain, by its last step.
#[derive(Clone, Copy)]
struct Chain {
    /// How often its moves occur, all together.
    votes: u64,
    /// The number of its last step, counted from 1; 0 if it has none.
    end: usize,
}

/// The chain without steps.
const EMPTY: Chain = Chain { votes: 0, end: 0 };

/// The heaviest chain of some moves, in rising order.
pub(crate) fn heaviest_chain<A: Allocator + Copy>(
    alloc: A,
    moves: &mut [Move],
) -> Result<Vec<Step, A>, AllocError> {
    // Of one old weight no two moves can follow one another, since the greatest new weight comes first.
    moves.sort_unstable_by(|left, right| left.old.cmp(&right.old).then(right.new.cmp(&left.new)));
    let mut steps = counted(alloc, moves)?;
    chain_of(alloc, &mut steps)
}

// The moves, each once with its count. Equal ones follow one another.
fn counted<A: Allocator>(alloc: A, moves: &[Move]) -> Result<Vec<Step, A>, AllocError> {
    let mut steps = Vec::new(alloc);
    for is in moves {
        count(&mut steps, *is)?;
    }
    Ok(steps)
}

// Counts a move: for the last step if it has the same move, and as a step of its own otherwise.
fn count<A: Allocator>(steps: &mut Vec<Step, A>, is: Move) -> Result<(), AllocError> {
    if let Some(last) = steps.last_mut() {
        if last.is == is {
            last.votes = last.votes.saturating_add(1);
            return Ok(());
        }
    }
    match steps.push(first_vote(is)) {
        Ok(()) => Ok(()),
        Err(_) => Err(AllocError),
    }
}

// A move that occurred once.
fn first_vote(is: Move) -> Step {
    Step {
        is,
        votes: 1,
        before: 0,
    }
}

// Finds the step before each step, and returns the steps of the heaviest chain. A tree has for each range of new weights the
// heaviest chain that ends in it: its leaves are the weights, and the two halves of node n are nodes 2n and 2n + 1.
fn chain_of<A: Allocator + Copy>(alloc: A, steps: &mut [Step]) -> Result<Vec<Step, A>, AllocError> {
    let mut tree = vec![in alloc; EMPTY; 2 * WEIGHT_COUNT]?;
    let heaviest = link_in(&mut tree, steps);
    drop(tree);
    chain_to(alloc, steps, heaviest)
}

// Finds the step before each step, in a tree that has no chain yet, and returns the heaviest chain.
fn link_in(tree: &mut [Chain], steps: &mut [Step]) -> Chain {
    let mut number: usize = 0;
    for step in steps.iter_mut() {
        number = number.saturating_add(1);
        link_step(tree, step, number);
    }
    chain_at(tree, ROOT)
}

// Finds the step before a step, and puts the chain that ends with the step in.
fn link_step(tree: &mut [Chain], step: &mut Step, number: usize) {
    let below = heaviest_below(tree, step.is.new);
    step.before = below.end;
    let chain = Chain {
        votes: below.votes.saturating_add(step.votes),
        end: number,
    };
    put_chain(tree, step.is.new, chain);
}

// The heaviest chain that ends with a lower new weight than this one.
fn heaviest_below(tree: &[Chain], weight: u16) -> Chain {
    let mut heaviest = EMPTY;
    let mut node = WEIGHT_COUNT + usize::from(weight);
    for _ in 1..TREE_DEPTH {
        if node % 2 == 1 {
            heaviest = heavier(heaviest, chain_at(tree, node - 1));
        }
        node /= 2;
    }
    heaviest
}

// The chain at a node.
fn chain_at(tree: &[Chain], node: usize) -> Chain {
    match tree.get(node) {
        Some(chain) => *chain,
        None => EMPTY,
    }
}

// Puts a chain that ends with a new weight in at all nodes that have this weight, where it is the heaviest.
fn put_chain(tree: &mut [Chain], weight: u16, chain: Chain) {
    let mut node = WEIGHT_COUNT + usize::from(weight);
    for _ in 0..TREE_DEPTH {
        if node < tree.len() {
            tree[node] = heavier(tree[node], chain);
        }
        node /= 2;
    }
}

// The heavier one of two chains; the first if they are equal.
fn heavier(first: Chain, second: Chain) -> Chain {
    if first.votes < second.votes {
        second
    } else {
        first
    }
}

// The steps of a chain, in rising order.
fn chain_to<A: Allocator>(
    alloc: A,
    steps: &[Step],
    chain: Chain,
) -> Result<Vec<Step, A>, AllocError> {
    let mut found = Vec::new(alloc);
    let mut number = chain.end;
    for _ in 0..steps.len() {
        let Some(step) = numbered(steps, number) else {
            break;
        };
        found.push(step)?;
        number = step.before;
    }
    found.reverse();
    Ok(found)
}

// The step with a number, counted from 1.
fn numbered(steps: &[Step], number: usize) -> Option<Step> {
    if number == 0 || number > steps.len() {
        return None;
    }
    Some(steps[number - 1])
}
