//! Why a table refuses an edit.
use thiserror::Error;

/// Why a table refuses an edit (iptables(8), "COMMANDS"). What is refused changes nothing.
#[derive(Clone, Copy, Debug, PartialEq, Eq, Error)]
pub enum TableFault {
    /// T1: no chain has the name.
    #[error("no such chain")]
    NoSuchChain,
    /// T2: a chain has the name already; the names of the built-in chains count.
    #[error("chain exists")]
    ChainExists,
    /// T3: the name isn't one that a chain can have.
    #[error("bad chain name")]
    BadChainName,
    /// T4: no rule has the number.
    #[error("number out of range")]
    NumberOutOfRange,
    /// T5: no rule of the chain has the text.
    #[error("no such rule")]
    NoSuchRule,
    /// T6: the chain has rules.
    #[error("chain not empty")]
    ChainNotEmpty,
    /// T7: a rule names the chain.
    #[error("chain referenced")]
    ChainReferenced,
    /// T8: the chain is a built-in one.
    #[error("built-in chain")]
    BuiltInChain,
    /// T9: the chain isn't a built-in one, so it has no policy.
    #[error("not a built-in chain")]
    NotBuiltInChain,
    /// T10: the rule would close a loop of jumps and gotos.
    #[error("loop")]
    Loop,
    /// T11: no chain has the name that the rule jumps or goes to.
    #[error("target chain missing")]
    TargetMissing,
    /// T12: the chain that the rule jumps or goes to is a built-in one.
    #[error("target is built-in")]
    TargetBuiltIn,
    /// T13: the rule tests an interface that packets of the chain don't have.
    #[error("interface not allowed in this chain")]
    InterfaceNotAllowed,
    /// T14: the chain has 8,192 rules.
    #[error("chain full")]
    ChainFull,
    /// T15: there are 1,024 user chains.
    #[error("too many chains")]
    TooManyChains,
    /// T16: the policy is neither ACCEPT nor DROP.
    #[error("bad policy")]
    BadPolicy,
    /// M0: memory was refused, and nothing else refuses the edit.
    #[error("no memory")]
    NoMemory,
}
