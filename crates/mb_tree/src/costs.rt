ghost use Rattle.std.specs.Prelude.{◌≡◌, ◌<◌, ◌≤◌, ◌+◌, ◌-◌, ◌*◌, ◌/◌, ◌^◌, IfOk, length};
ghost use Rattle.std.specs.List.{list_any};
ghost use Rattle.std.specs.FinMap as fin;
ghost use Rattle.std.specs.FinSet as set;
ghost use Rattle.mb_tree.specs.Counting.{sum_below};
ghost use Rattle.mb_tree.specs.Cost.{is_within, is_near, is_last, touched, index_blocks, first_parts, parts_for, parts_of, body_cost, cost_at};

use crate::nodes::{Body, Nodes};
use std::alloc::{AllocError, Global};

/// The first part under the single, the double and the triple indirect address of an inode, and the
/// first part past them.
const SINGLE: u32 = 10;

const DOUBLE: u32 = 138;

const TRIPLE: u32 = 16522;

const END: u32 = 2_113_674;

/// Whether a part number lies between two others.
fn is_within(low: u32, high: u32, part: u32) -> bool
    ensures { result ≡ is_within low high part }
{
    low <= part && part < high
}

/// The group of a part.
fn group(low: u32, size: u32, part: u32) -> u32
    requires { 0 < size }
    ensures { result ≡ (part - low) / size }
{
    part.saturating_sub(low) / size
}

/// Whether another part lies between two others and in the group of a part.
fn is_near(low: u32, high: u32, size: u32, part: u32, other: u32) -> bool
    requires { 0 < size }
    ensures { result ≡ is_near low high size part other }
{
    is_within(low, high, other) && group(low, size, other) == group(low, size, part)
}

/// Whether one of these parts is in the group of a part.
fn has_near(low: u32, high: u32, size: u32, part: u32, rest: &[u32]) -> bool
    requires { 0 < size }
    ensures { result ≡ list_any (is_near low high size part) rest.now }
{
    rest.iter()
        .any(|other| is_near(low, high, size, part, *other))
}

/// Whether a part is the last of its group in a list.
fn is_last(low: u32, high: u32, size: u32, part: u32, rest: &[u32]) -> bool
    requires { 0 < size }
    ensures { result ≡ is_last low high size part rest.now }
{
    is_within(low, high, part) && !has_near(low, high, size, part, rest)
}

/// How many groups of so many parts hold one of these parts.
fn touched(low: u32, high: u32, size: u32, parts: &[u32]) -> usize
    requires { 0 < size }
    ensures count { result ≡ set.len (touched low high size parts.now) }
    ensures few { result ≤ length parts.now }
{
    let mut count = 0;
    let mut rest = parts;
    'turns: while let Some((part, after)) = rest.split_first() {
        rest = after;
        if is_last(low, high, size, *part, after) {
            count += 1;
        }
    }
    count
}

/// How many index blocks lead to these parts.
fn index_blocks(parts: &[u32]) -> u128
    ensures count { result ≡ index_blocks parts.now }
    ensures few { result ≤ 6 * length parts.now }
{
    touched(SINGLE, DOUBLE, 128, parts) as u128
        + touched(DOUBLE, TRIPLE, 128, parts) as u128
        + touched(DOUBLE, TRIPLE, 16384, parts) as u128
        + touched(TRIPLE, END, 128, parts) as u128
        + touched(TRIPLE, END, 16384, parts) as u128
        + touched(TRIPLE, END, 2_097_152, parts) as u128
}

/// How many blocks these parts and their index blocks are.
pub fn blocks(parts: &[u32]) -> u128
    ensures count { result ≡ length parts.now + index_blocks parts.now }
    ensures few { result < 2 ^ 67 }
{
    parts.len() as u128 + index_blocks(parts)
}

/// The numbers below a count, falling.
pub fn first_parts(alloc: Global, count: u32) -> Result<Vec<u32>, AllocError>
    ensures { IfOk result (λ parts. parts.items ≡ first_parts count) }
{
    let mut parts = Vec::new(alloc);
    let mut left = count;
    'turns: while left > 0 {
        left -= 1;
        parts.push(left)?;
    }
    Ok(parts)
}

/// How many parts so many slots fill. The error stands for a list that no memory holds.
fn parts_for(slots: usize) -> Result<u32, AllocError>
    ensures { IfOk result (λ parts. parts ≡ parts_for slots) }
{
    match u32::try_from((slots as u128 + 31) / 32) {
        Ok(parts) => Ok(parts),
        Err(_) => Err(AllocError),
    }
}

impl Body {
    /// How many blocks the content holds.
    pub fn cost(&self, alloc: Global) -> Result<u128, AllocError>
        ensures cost { IfOk result (λ cost. cost ≡ body_cost self.now) }
        ensures few { IfOk result (λ cost. cost < 2 ^ 67) }
    {
        match self {
            Body::Regular { parts, .. } => {
                let parts = parts.keys(alloc)?;
                Ok(blocks(&parts))
            }
            Body::Directory { slots } => {
                let parts = first_parts(alloc, parts_for(slots.len())?)?;
                Ok(blocks(&parts))
            }
            Body::Special { .. } => Ok(0),
        }
    }
}

/// How many blocks the inode with a number holds.
fn cost_at(alloc: Global, nodes: &Nodes, ino: u32) -> Result<u128, AllocError>
    ensures cost { IfOk result (λ cost. cost ≡ cost_at (fin.get nodes.now ino)) }
    ensures few { IfOk result (λ cost. cost < 2 ^ 67) }
{
    match nodes.get(ino) {
        Some(node) => node.body.cost(alloc),
        None => Ok(0),
    }
}

/// How many blocks the inodes up to the last one hold.
pub fn cost(alloc: Global, nodes: &Nodes, last: u16) -> Result<u128, AllocError>
    ensures { IfOk result (λ cost. cost ≡ sum_below (λ ino. cost_at (fin.get nodes.now ino)) (last + 1)) }
{
    let mut total = 0;
    let mut ino = 0;
    'turns: while ino <= u32::from(last) {
        total += cost_at(alloc, nodes, ino)?;
        ino += 1;
    }
    Ok(total)
}
