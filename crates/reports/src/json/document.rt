//! What `--json` writes: an answer as one JSON document, by the schema `docs/schemas/iptaudit.json`. A key that
//! doesn't apply is left out.
use serde::Serialize;
use std::alloc::{AllocError, Global};

/// An answer.
#[derive(Drop, Serialize)]
#[serde(tag = "question", rename_all = "snake_case")]
pub(crate) enum Answer {
    Dead {
        rules: Vec<RuleEntry>,
        counts: Counts,
        #[serde(skip_serializing_if = "Vec::is_empty")]
        open: Vec<OpenEntry>,
    },
    Compare {
        hooks: Vec<HookEntry>,
        counts: ChangeCounts,
        #[serde(skip_serializing_if = "Vec::is_empty")]
        open: Vec<OpenEntry>,
        #[serde(skip_serializing_if = "Option::is_none")]
        premise: Option<Premise>,
    },
    Tests {
        rules: Vec<RuleEntry>,
        #[serde(skip_serializing_if = "Vec::is_empty")]
        open: Vec<OpenEntry>,
    },
    Cover {
        rules: Vec<RuleEntry>,
        counts: Counts,
        /// The lines of the packets of which it isn't known of a rule whether they match it.
        #[serde(skip_serializing_if = "Vec::is_empty")]
        unclear_lines: Vec<u64>,
        #[serde(skip_serializing_if = "Vec::is_empty")]
        open: Vec<OpenEntry>,
    },
    Walk {
        packets: Vec<PacketEntry>,
        #[serde(skip_serializing_if = "Vec::is_empty")]
        open: Vec<OpenEntry>,
    },
    Assert {
        claims: Vec<ClaimEntry>,
        counts: ClaimCounts,
        #[serde(skip_serializing_if = "Vec::is_empty")]
        open: Vec<OpenEntry>,
    },
    Reach {
        field: String,
        outcomes: Vec<OutcomeEntry>,
    },
    /// The verdicts of the packets aren't known.
    #[serde(rename = "reach")]
    UnclearReach {
        field: String,
        unclear: bool,
    },
}

/// How many conditions of a match are taken as open.
#[derive(Drop, Serialize)]
pub(crate) struct OpenEntry {
    #[serde(rename = "match")]
    pub(crate) name: String,
    pub(crate) count: usize,
}

/// What an answer holds under beside its conditions.
#[derive(Clone, Copy, Serialize)]
#[serde(rename_all = "snake_case")]
pub(crate) enum Premise {
    /// Each condition of a place answers the same each time that one packet asks it.
    AnswersStay,
}

/// Whether a condition holds. One of a place has its chain and, of one dump, the number of its rule.
#[derive(Drop, Serialize)]
pub(crate) struct AnswerEntry {
    pub(crate) condition: String,
    #[serde(skip_serializing_if = "Option::is_none")]
    pub(crate) chain: Option<String>,
    #[serde(skip_serializing_if = "Option::is_none")]
    pub(crate) number: Option<usize>,
    /// The how-many-eth of its text in its chain, where it isn't the first.
    #[serde(skip_serializing_if = "Option::is_none")]
    pub(crate) nth: Option<usize>,
    pub(crate) holds: bool,
}

/// A packet, and its walks, each under its answers; there are none where they aren't known.
#[derive(Drop, Serialize)]
pub(crate) struct PacketEntry {
    pub(crate) packet: String,
    #[serde(skip_serializing_if = "Option::is_none")]
    pub(crate) walks: Option<Vec<EndEntry>>,
    #[serde(skip_serializing_if = "Option::is_none")]
    pub(crate) unclear: Option<bool>,
}

/// What becomes of a packet under some answers.
#[derive(Drop, Serialize)]
pub(crate) struct EndEntry {
    #[serde(skip_serializing_if = "Vec::is_empty")]
    pub(crate) answers: Vec<AnswerEntry>,
    pub(crate) verdict: String,
    #[serde(skip_serializing_if = "Option::is_none")]
    pub(crate) by: Option<DeciderEntry>,
}

/// What is known of a rule.
#[derive(Drop, Serialize)]
pub(crate) struct RuleEntry {
    pub(crate) chain: String,
    pub(crate) number: usize,
    /// Its line in a listing.
    pub(crate) rule: String,
    /// The conditions that it asks.
    #[serde(skip_serializing_if = "Vec::is_empty")]
    pub(crate) needs: Vec<AnswerEntry>,
    pub(crate) life: LifeWord,
    /// The answers under which it matches the packet.
    #[serde(skip_serializing_if = "Vec::is_empty")]
    pub(crate) answers: Vec<AnswerEntry>,
    /// The line of a packet that it matches.
    #[serde(skip_serializing_if = "Option::is_none")]
    pub(crate) packet: Option<String>,
    #[serde(skip_serializing_if = "Option::is_none")]
    pub(crate) reason: Option<ReasonEntry>,
    #[serde(skip_serializing_if = "Option::is_none")]
    pub(crate) standing: Option<StandingWord>,
}

/// What is known of a rule, in one word.
#[derive(Clone, Copy, Serialize)]
#[serde(rename_all = "snake_case")]
pub(crate) enum LifeWord {
    Live,
    Covered,
    Missed,
    Dead,
    Unclear,
}

/// What a dead rule is whose packets others decide, in one word.
#[derive(Clone, Copy, Serialize)]
#[serde(rename_all = "snake_case")]
pub(crate) enum StandingWord {
    Redundant,
    Shadowed,
}

/// Why a rule is dead.
#[derive(Drop, Serialize)]
#[serde(tag = "kind", rename_all = "snake_case")]
pub(crate) enum ReasonEntry {
    Impossible {
        field: String,
    },
    Unreached,
    NoPacket,
    Unmet,
    Excluded {
        rules: Vec<RuleName>,
    },
    Taken {
        rules: Vec<RuleName>,
        policies: Vec<PolicyEntry>,
    },
}

/// A rule by its chain and its number there; what it does where it decides a dead rule's packets; and on a walk the answers under which it
/// matches.
#[derive(Drop, Serialize)]
pub(crate) struct RuleName {
    pub(crate) chain: String,
    pub(crate) number: usize,
    #[serde(skip_serializing_if = "Vec::is_empty")]
    pub(crate) answers: Vec<AnswerEntry>,
    #[serde(skip_serializing_if = "Option::is_none")]
    pub(crate) verdict: Option<String>,
}

/// A policy that decides a dead rule's packets.
#[derive(Drop, Serialize)]
pub(crate) struct PolicyEntry {
    pub(crate) chain: String,
    pub(crate) verdict: String,
}

/// How many rules there are, of all and of each kind.
#[derive(Drop, Serialize)]
pub(crate) struct Counts {
    pub(crate) rules: usize,
    #[serde(skip_serializing_if = "Option::is_none")]
    pub(crate) covered: Option<usize>,
    /// How many of these do so under some answers alone.
    #[serde(skip_serializing_if = "Option::is_none")]
    pub(crate) covered_if: Option<usize>,
    #[serde(skip_serializing_if = "Option::is_none")]
    pub(crate) missed: Option<usize>,
    pub(crate) dead: usize,
    pub(crate) unclear: usize,
    #[serde(skip_serializing_if = "Option::is_none")]
    pub(crate) redundant: Option<usize>,
    #[serde(skip_serializing_if = "Option::is_none")]
    pub(crate) shadowed: Option<usize>,
}

/// Whether two rulesets give each packet at a hook the same verdict; and where they don't, a packet, with its walk in each.
#[derive(Drop, Serialize)]
pub(crate) struct HookEntry {
    pub(crate) hook: String,
    pub(crate) answer: LikenessWord,
    #[serde(skip_serializing_if = "Option::is_none")]
    pub(crate) packet: Option<String>,
    /// The answers under which it does.
    #[serde(skip_serializing_if = "Vec::is_empty")]
    pub(crate) answers: Vec<AnswerEntry>,
    #[serde(skip_serializing_if = "Option::is_none")]
    pub(crate) old: Option<WalkEntry>,
    #[serde(skip_serializing_if = "Option::is_none")]
    pub(crate) new: Option<WalkEntry>,
}

/// How many rules only one of two rulesets has, and how many of these are dead and unclear.
#[derive(Drop, Serialize)]
pub(crate) struct ChangeCounts {
    pub(crate) changed: usize,
    pub(crate) dead: usize,
    pub(crate) unclear: usize,
}

/// What is known of two rulesets at a hook, in one word.
#[derive(Clone, Copy, Serialize)]
#[serde(rename_all = "snake_case")]
pub(crate) enum LikenessWord {
    Same,
    Differs,
    Unclear,
}

/// The walk of a packet: the rules that it matches, in turn, and the verdict with what gives it. Nothing gives `TOOLONG`.
#[derive(Drop, Serialize)]
pub(crate) struct WalkEntry {
    pub(crate) trail: Vec<RuleName>,
    pub(crate) verdict: String,
    #[serde(skip_serializing_if = "Option::is_none")]
    pub(crate) by: Option<DeciderEntry>,
}

/// What gives a verdict: a rule, or the policy of a chain.
#[derive(Drop, Serialize)]
#[serde(untagged)]
pub(crate) enum DeciderEntry {
    Rule(RuleName),
    Policy { policy: String },
}

/// What is known of a claim; and where it fails a packet, with the answers under which it does, and its walk, where that is known.
#[derive(Drop, Serialize)]
pub(crate) struct ClaimEntry {
    /// The number of its line.
    pub(crate) line: u64,
    #[serde(skip_serializing_if = "Option::is_none")]
    pub(crate) name: Option<String>,
    pub(crate) text: String,
    pub(crate) answer: ClaimWord,
    #[serde(skip_serializing_if = "Option::is_none")]
    pub(crate) packet: Option<String>,
    #[serde(rename = "if", skip_serializing_if = "Vec::is_empty")]
    pub(crate) given: Vec<AnswerEntry>,
    #[serde(skip_serializing_if = "Option::is_none")]
    pub(crate) walk: Option<Vec<RuleName>>,
    #[serde(skip_serializing_if = "Option::is_none")]
    pub(crate) verdict: Option<String>,
    #[serde(skip_serializing_if = "Option::is_none")]
    pub(crate) by: Option<DeciderEntry>,
}

/// What is known of a claim, in one word.
#[derive(Clone, Copy, Serialize)]
#[serde(rename_all = "snake_case")]
pub(crate) enum ClaimWord {
    Ok,
    Fails,
    Unclear,
}

/// How many claims there are, of all and of each kind.
#[derive(Drop, Serialize)]
pub(crate) struct ClaimCounts {
    pub(crate) claims: usize,
    pub(crate) ok: usize,
    pub(crate) fails: usize,
    pub(crate) unclear: usize,
}

/// A verdict with what gives it, and the numbers of its packets on the field.
#[derive(Drop, Serialize)]
pub(crate) struct OutcomeEntry {
    pub(crate) verdict: String,
    pub(crate) by: DeciderEntry,
    pub(crate) numbers: String,
}

/// An answer as text, without a newline behind it.
///
/// # Errors
///
/// `AllocError` where memory was refused, which is all that can keep an answer from being text.
pub(crate) fn text_of(alloc: Global, answer: &Answer) -> Result<Vec<u8>, AllocError> {
    match serde_json::to_vec(alloc, answer) {
        Ok(text) => Ok(text),
        Err(_) => Err(AllocError),
    }
}
