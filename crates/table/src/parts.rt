//! What a table is made of: the policies, all chains under keys, and the index of the keys in the order of a listing.
use crate::chain::Chain;
use crate::policy::Policy;
use slab::Slab;
use std::alloc::Global;

// The policies of the built-in chains, the chains under keys, and the index of the keys in listing order.
#[derive(Drop)]
pub(crate) struct Parts {
    pub(crate) alloc: Global,
    pub(crate) policies: [Policy; 3],
    pub(crate) chains: Slab<Chain>,
    pub(crate) order: Vec<usize>,
}
