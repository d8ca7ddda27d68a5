// Classes of nodes. Each class is a block that knows its members, so that where two are made one only the members of the
// smaller one move.

ghost use Rattle.std.specs.Prelude.{◌≡◌, ◌⊎◌, ◌++◌, ◌∷◌, [], ◌<◌, List, ℕ, length, map, slice_get, slice_set, IfOk, OnOk, OnErr, Some, IsTrue};
ghost use Rattle.ath_unifiers.specs.Partitions.{class_at, rename, is_member, members_of};

use sqlite_items::Items;
use std::alloc::{AllocError, Global};
use std::marker::Model;

/// The members of a class, and that one which names it.
#[derive(Drop)]
pub struct Block {
    name: usize,
    members: Items<usize>,
}

/// The block of each node, and the blocks. A clause sees the name of each node's class.
#[derive(Drop)]
pub struct Partition {
    block: Items<usize>,
    blocks: Vec<Block>,
}

impl Model for Partition {
    ghost use Rattle.std.specs.Prelude.{List, ℕ};
    ghost use Rattle.ath_unifiers.specs.Partitions.{IsPartition, class_names};

    ghost Value = { List ℕ };

    ghost view = { λ p. class_names p.block p.blocks.items };

    ghost invariant = { λ p. IsPartition p.block p.blocks.items };
}

impl Partition {
    pub fn new(alloc: Global) -> Partition
        ensures { result ≡ [] }
    {
        Partition {
            block: Items::new(alloc),
            blocks: Vec::new(alloc),
        }
    }

    /// The name of the node's class. A node that isn't there is its own.
    pub fn class_of(&self, at: usize) -> usize
        ensures { result ≡ class_at self.now at }
    {
        let Some(block) = self.block.get(at) else {
            return at;
        };
        match self.blocks.as_slice().get(*block) {
            Some(block) => block.name,
            None => *block,
        }
    }

    /// Adds a node as a class of its own.
    pub fn push(&mut self, alloc: Global) -> Result<usize, AllocError>
        ensures at { IfOk result (λ at. at ≡ length self.old) }
        ensures class { IfOk result (λ at. self.new ≡ self.old ++ at ∷ []) }
    {
        let at = self.block.len();
        let mut members = Items::new(alloc);
        members.push(at)?;
        let blocks = self.blocks.as_slice();
        let block = blocks.len();
        self.blocks.push(Block { name: at, members })?;
        self.block.push(block)?;
        Ok(at)
    }

    /// Makes two classes one, under the first of the names.
    pub fn join(&mut self, alloc: Global, kept: usize, gone: usize) -> Result<(), AllocError>
        requires kept_there { kept < length self.old }
        requires gone_there { gone < length self.old }
        requires kept_named { class_at self.old kept ≡ kept }
        requires gone_named { class_at self.old gone ≡ gone }
        ensures { OnOk result (self.new ≡ map (rename gone kept) self.old) }
    {
        let kept_block = filed_under(&self.block, kept);
        let gone_block = filed_under(&self.block, gone);
        let order = smaller_first(&self.blocks, kept_block, gone_block);
        let from = order.0;
        let into = order.1;
        let moved = members_copied(alloc, &self.blocks, from)?;
        absorb(&mut self.blocks[into], kept, moved.as_slice())?;
        file(&mut self.block, moved.as_slice(), from, into);
        Ok(())
    }
}

fn filed_under(block: &Items<usize>, at: usize) -> usize
    requires { at < length block.now }
    ensures { slice_get block.now at ≡ Some result }
{
    block.as_slice()[at]
}

/// The two blocks, first that with fewer members.
fn smaller_first(blocks: &Vec<Block>, a: usize, b: usize) -> (usize, usize)
    requires a_there { a < length blocks.now.items }
    requires b_there { b < length blocks.now.items }
    ensures order { ((result.0 ≡ a) × (result.1 ≡ b)) ⊎ ((result.0 ≡ b) × (result.1 ≡ a)) }
    ensures from_there { result.0 < length blocks.now.items }
    ensures into_there { result.1 < length blocks.now.items }
{
    let blocks = blocks.as_slice();
    if blocks[a].members.len() < blocks[b].members.len() {
        (a, b)
    } else {
        (b, a)
    }
}

fn members_copied(alloc: Global, blocks: &Vec<Block>, at: usize) -> Result<Items<usize>, AllocError>
    ensures { IfOk result (λ members. members ≡ members_of (slice_get blocks.now.items at)) }
{
    match blocks.as_slice().get(at) {
        Some(block) => Items::from_slice(alloc, block.members.as_slice()),
        None => Ok(Items::new(alloc)),
    }
}

/// Adds members to a block, and then gives it a name.
fn absorb(block: &mut Block, name: usize, more: &[usize]) -> Result<(), AllocError>
    ensures named { OnOk result (block.new.name ≡ name) }
    ensures members { OnOk result (block.new.members ≡ block.old.members ++ more.now) }
    ensures not_named { OnErr result (block.new.name ≡ block.old.name) }
    ensures kept { (ms : List ℕ) × (block.new.members ≡ block.old.members ++ ms) }
{
    for member in more {
        block.members.push(*member)?;
    }
    block.name = name;
    Ok(())
}

/// Files the members of a block under another.
fn file(block: &mut Items<usize>, members: &[usize], from: usize, into: usize)
    requires { (i : ℕ) → slice_get block.old i ≡ Some from → IsTrue (is_member members.now i) }
    ensures { block.new ≡ map (rename from into) block.old }
{
    for i in 0..members.len() {
        move_one(block, members[i], from, into);
    }
}

fn move_one(block: &mut Items<usize>, at: usize, from: usize, into: usize)
    ensures { ((slice_get block.old at ≡ Some from) × (block.new ≡ slice_set block.old at into)) ⊎ ((slice_get block.old at ≡ Some from → ⊥) × (block.new ≡ block.old)) }
{
    let Some(filed) = block.get(at) else {
        return;
    };
    if *filed != from {
        return;
    }
    block.set(at, into);
}
