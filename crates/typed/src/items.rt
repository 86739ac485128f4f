// The items of a list, one after the other, as each is read from the image.
ghost use Rattle.std.specs.Prelude.{◌≡◌, ◌+◌, ◌*◌, ◌^◌, ◌<◌, ◌≤◌};

use crate::list;
use crate::nodes::*;
use ast::{NodeId, field};

// What is left of a list of ids, with the image that it stands in.
#[derive(Drop)]
pub struct Items<'a, T> {
    pub image: &'a [u8],
    pub left: Ids<T>,
    ghost short: { left.list.first + left.list.count ≤ 8193 },
}

impl<T: From<NodeId>> Ids<T> {
    // The ids, one after the other, as the image has them.
    pub fn of(self, image: &[u8]) -> Items<'_, T>
        requires { self.list.first + self.list.count ≤ 8193 }
        ensures { (result.image.now ≡ image.now) × (result.left.list ≡ self.list) }
    {
        Items { image, left: self }
    }
}

impl<'a, T: From<NodeId>> Iterator for Items<'a, T> {
    ghost use Rattle.std.specs.Iterator.{at_most};
    ghost use Rattle.typed.specs.Items.{GivesItem};

    type Item = T;

    ghost next_gives = { GivesItem T.from_gives };

    ghost remaining = { λ s. at_most s.left.list.count };

    #[inline(always)]
    fn next(&mut self) -> Option<T> {
        let list = self.left.list;
        self.left.list.count = list.count.checked_sub(1)?;
        self.left.list.first += 1;
        Some(T::from(NodeId(field(self.image, list.node, list.first))))
    }
}

// What is left of the blocks of a branch, each of which is a list, with the image that they stand in.
#[derive(Drop)]
pub struct Blocks<'a> {
    pub image: &'a [u8],
    pub left: Ids<Ids<StmtId>>,
    // A block's count is below 2^32, so no place overflows.
    ghost short: { left.list.first + left.list.count * 2 ^ 32 < 2 ^ 64 },
}

impl Ids<Ids<StmtId>> {
    // The blocks, one after the other, as the image has them.
    pub fn of(self, image: &[u8]) -> Blocks<'_>
        requires { self.list.first + self.list.count * 2 ^ 32 < 2 ^ 64 }
        ensures { (result.image.now ≡ image.now) × (result.left.list ≡ self.list) }
    {
        Blocks { image, left: self }
    }
}

impl<'a> Iterator for Blocks<'a> {
    ghost use Rattle.std.specs.Iterator.{at_most};
    ghost use Rattle.typed.specs.Items.{GivesBlock};

    type Item = Ids<StmtId>;

    ghost next_gives = { GivesBlock };

    ghost remaining = { λ s. at_most s.left.list.count };

    #[inline(always)]
    fn next(&mut self) -> Option<Ids<StmtId>> {
        let blocks = self.left.list;
        self.left.list.count = blocks.count.checked_sub(1)?;
        let block = list(self.image, blocks.node, blocks.first);
        self.left.list.first = block.list.first + block.list.count;
        Some(block)
    }
}
