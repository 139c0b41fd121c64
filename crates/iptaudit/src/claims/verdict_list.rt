//! The verdicts that a claim names: `ACCEPT,REJECT:tcp-reset`.
use crate::fault::Fault;
use fields::RejectType;
use std::alloc::{AllocError, Global};
use table::Verdict;

// Each verdict.
const EACH: [Verdict; 11] = [
    Verdict::Accept,
    Verdict::Drop,
    Verdict::Reject(RejectType::NetUnreachable),
    Verdict::Reject(RejectType::HostUnreachable),
    Verdict::Reject(RejectType::PortUnreachable),
    Verdict::Reject(RejectType::ProtoUnreachable),
    Verdict::Reject(RejectType::NetProhibited),
    Verdict::Reject(RejectType::HostProhibited),
    Verdict::Reject(RejectType::AdminProhibited),
    Verdict::Reject(RejectType::TcpReset),
    Verdict::TooLong,
];

// What a name of a verdict means.
#[derive(Clone, Copy)]
enum Meant {
    // This one.
    One(Verdict),
    // Each REJECT.
    Rejects,
}

// What a name means.
fn meaning_of(name: &[u8]) -> Option<Meant> {
    match name {
        b"ACCEPT" => Some(Meant::One(Verdict::Accept)),
        b"DROP" => Some(Meant::One(Verdict::Drop)),
        b"REJECT" => Some(Meant::Rejects),
        _ => {
            let kind = RejectType::read(name.strip_prefix(b"REJECT:".as_slice())?)?;
            Some(Meant::One(Verdict::Reject(kind)))
        }
    }
}

// Whether a verdict is one that a name means.
fn is_meant(meant: Meant, verdict: Verdict) -> bool {
    match meant {
        Meant::One(one) => one == verdict,
        Meant::Rejects => matches!(verdict, Verdict::Reject(_)),
    }
}

// Adds the verdicts that a name means.
fn add_meant(verdicts: &mut Vec<Verdict>, meant: Meant) -> Result<(), AllocError> {
    for verdict in EACH {
        if is_meant(meant, verdict) {
            verdicts.push(verdict)?;
        }
    }
    Ok(())
}

/// The verdicts of a word.
///
/// # Errors
///
/// `NoVerdict` where one of its names is none; or where memory was refused.
pub(crate) fn verdicts_of<'a>(alloc: Global, word: &'a str) -> Result<Vec<Verdict>, Fault<'a>> {
    let mut verdicts = Vec::new(alloc);
    for name in word.as_bytes().split(|byte| *byte == b',') {
        let Some(meant) = meaning_of(name) else {
            return Err(Fault::NoVerdict(word));
        };
        add_meant(&mut verdicts, meant)?;
    }
    Ok(verdicts)
}

/// All verdicts but some.
///
/// # Errors
///
/// `AllocError` where memory was refused.
pub(crate) fn all_but(alloc: Global, verdicts: &[Verdict]) -> Result<Vec<Verdict>, AllocError> {
    let mut others = Vec::new(alloc);
    for verdict in EACH {
        if !verdicts.contains(&verdict) {
            others.push(verdict)?;
        }
    }
    Ok(others)
}
