//! Numbers put into a vector, where the later ones move up block by block: the compiler moves them in the processor's lanes.

ghost use Rattle.std.specs.Prelude.{◌≡◌, ◌<◌, ◌≤◌, ◌+◌, ◌-◌, length, insert, take, drop, OnOk, OnErr, IsOk};
ghost use Rattle.std.specs.Vec.{vec_capacity};
ghost use Rattle.bits.specs.steps.Blocks.{Raised};

use std::alloc::AllocError;
use std::simd::prelude::*;

// Moves the last elements up by so many places, over the last of them, in blocks of 16 as long as they lie from a place on:
// it returns where the first that was moved stands.
fn raise_blocks(items: &mut [u32], at: usize, by: usize) -> usize
    requires { at + by ≤ length items.old }
    ensures { Raised by at items.old items.new result }
{
    let mut end = items.len();
    while end - at >= 16 + by {
        let block = u32x16::from_slice(&items[end - 16 - by..]);
        block.copy_to_slice(&mut items[end - 16..]);
        end -= 16;
    }
    end
}

// Moves the elements from a place on up by so many places, over the last of them.
fn raise(items: &mut [u32], at: usize, by: usize)
    requires { at + by ≤ length items.old }
    ensures same { length items.new ≡ length items.old }
    ensures low { take at items.new ≡ take at items.old }
    ensures high { drop (at + by) items.new ≡ take (length items.old - (at + by)) (drop at items.old) }
{
    let mut end = raise_blocks(items, at, by);
    while end > at + by {
        items[end - 1] = items[end - 1 - by];
        end -= 1;
    }
}

// Puts a number in at a place: the later ones move up by one. It is refused where memory is, never where there is room.
pub(crate) fn insert_at(items: &mut Vec<u32>, at: usize, item: u32) -> Result<(), AllocError>
    requires { at ≤ length items.old.items }
    ensures ok { OnOk result (items.new.items ≡ insert items.old.items at item) }
    ensures err { OnErr result (items.new.items ≡ items.old.items) }
    ensures there { length items.old.items < vec_capacity items.old → IsOk result }
{
    items.push(item)?;
    raise(items.as_mut_slice(), at, 1);
    items[at] = item;
    Ok(())
}

// Puts two numbers in at a place, the first there and the other after it: the later ones move up by two, in one move. They are
// refused where memory is, never where there is room for both.
pub(crate) fn insert_pair_at(
    items: &mut Vec<u32>,
    at: usize,
    first: u32,
    other: u32,
) -> Result<(), AllocError>
    requires { at ≤ length items.old.items }
    ensures ok { OnOk result (items.new.items ≡ insert (insert items.old.items at other) at first) }
    ensures err { OnErr result (items.new.items ≡ items.old.items) }
    ensures there { length items.old.items + 1 < vec_capacity items.old → IsOk result }
{
    items.reserve(2)?;
    items.push_reserved(first);
    items.push_reserved(other);
    raise(items.as_mut_slice(), at, 2);
    items[at] = first;
    items[at + 1] = other;
    Ok(())
}
