//! The edges of a chain: the chains that its rules lead to, each once, with how many of its rules do.
ghost use Rattle.std.specs.Prelude.{◌≡◌, ◌≢◌, ◌<◌, ◌+◌, ◌^◌, ℕ, length, slice_index, IfSome, IsSome, MatchOption, OnOk};
ghost use Rattle.std.specs.Vec.{vec_len, vec_capacity};
ghost use Rattle.table.specs.steps.StoredChains.{AreDistinct, CountsFewer, CountsMore, counted, ends};

use std::alloc::AllocError;

// An edge: the key of the chain that it leads to, and how many rules lead there.
#[derive(Clone, Copy, Debug, PartialEq, Eq)]
pub(crate) struct Edge {
    pub(crate) to: usize,
    pub(crate) rules: usize,
}

// Where the edge to the chain under a key stands, if there is one.
fn place_of(edges: &[Edge], key: usize) -> Option<usize>
    ensures { MatchOption result ((k : ℕ) → k < length edges.now → slice_index (ends edges.now) k ≢ key)
        (λ k. (k < length edges.now) × (slice_index (ends edges.now) k ≡ key)) }
{
    for place in 0..edges.len() {
        if edges[place].to == key {
            return Some(place);
        }
    }
    None
}

// Takes the memory that a further rule may need that leads to the chain under a key, if there is one.
pub(crate) fn reserve(edges: &mut Vec<Edge>, key: Option<usize>) -> Result<(), AllocError>
    ensures items { edges.new.items ≡ edges.old.items }
    ensures ok { OnOk result (IsSome key → vec_len edges.new < vec_capacity edges.new) }
{
    match key {
        Some(_) => edges.reserve(1),
        None => Ok(()),
    }
}

// Counts one rule more that leads to the chain under a key, if there is one.
pub(crate) fn add(edges: &mut Vec<Edge>, key: Option<usize>)
    requires distinct { AreDistinct edges.old.items }
    requires room { IsSome key → vec_len edges.old < vec_capacity edges.old }
    requires few { IfSome key (λ k. counted edges.old.items k + 1 < 2 ^ 64) }
    ensures distinct { AreDistinct edges.new.items }
    ensures counted { CountsMore key edges.old.items edges.new.items }
{
    let Some(key) = key else {
        return;
    };
    match place_of(edges, key) {
        Some(place) => edges[place].rules += 1,
        None => match edges.push(Edge { to: key, rules: 1 }) {
            Ok(()) => return,
            Err(_) => unreachable!(),
        },
    }
}

// Counts one rule less that leads to the chain under a key, if there is one. An edge without a rule goes.
pub(crate) fn take_off(edges: &mut Vec<Edge>, key: Option<usize>)
    requires distinct { AreDistinct edges.old.items }
    requires counted { IfSome key (λ k. 0 < counted edges.old.items k) }
    ensures distinct { AreDistinct edges.new.items }
    ensures counted { CountsFewer key edges.old.items edges.new.items }
{
    let Some(key) = key else {
        return;
    };
    let Some(place) = place_of(edges, key) else {
        unreachable!();
    };
    if edges[place].rules > 1 {
        edges[place].rules -= 1;
    } else {
        edges.remove(place);
    }
}
