//! How deep a walk goes: the contract is the law, and the function does nothing.
ghost use Rattle.table.specs.walk.Depth.{DepthIsBounded};

/// The law that no more rests wait on the stack of a walk than there are user chains.
#[tactic(auto, using(crate::proofs::laws::walk::DepthLaws::depth_bounded))]
pub fn depth_is_bounded()
    ensures { DepthIsBounded }
{}
