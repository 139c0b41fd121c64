//! What REJECT answers with.
ghost use Rattle.std.specs.Prelude.{◌≡◌, Some, IfSome};
ghost use Rattle.fields.specs.text.Tap.{Puts};

use crate::text::tap::{Tap, WriteFailed};
use std::io::Write;

/// What the target REJECT answers a packet with (iptables-extensions(8), `--reject-with`): an ICMP message, or the
/// reset of a TCP connection.
#[derive(Clone, Copy, Debug, PartialEq, Eq)]
pub enum RejectType {
    /// `icmp-net-unreachable`
    NetUnreachable,
    /// `icmp-host-unreachable`
    HostUnreachable,
    /// `icmp-port-unreachable`, the default
    PortUnreachable,
    /// `icmp-proto-unreachable`
    ProtoUnreachable,
    /// `icmp-net-prohibited`
    NetProhibited,
    /// `icmp-host-prohibited`
    HostProhibited,
    /// `icmp-admin-prohibited`
    AdminProhibited,
    /// `tcp-reset`, of packets of tcp alone
    TcpReset,
}

impl Default for RejectType {
    ghost use Rattle.fields.specs.declared.values.reject.RejectType.{RejectType};

    ghost is_default = { λ answer. answer ≡ RejectType.PortUnreachable };

    fn default() -> RejectType {
        Self::PortUnreachable
    }
}

impl RejectType {
    ghost use Rattle.fields.specs.declared.values.reject.RejectType.{RejectType};
    ghost use Rattle.fields.specs.values.RejectType.{reject_text, reject_named, reject_of};

    // Each type.
    const ALL: [RejectType; 8] = [
        RejectType::NetUnreachable,
        RejectType::HostUnreachable,
        RejectType::PortUnreachable,
        RejectType::ProtoUnreachable,
        RejectType::NetProhibited,
        RejectType::HostProhibited,
        RejectType::AdminProhibited,
        RejectType::TcpReset,
    ];

    // The first of some types with this text.
    fn named(text: &[u8], answers: &[RejectType]) -> Option<RejectType>
        ensures { result ≡ reject_named text.now answers.now }
    {
        answers.iter().copied().find(|answer| answer.text() == text)
    }

    /// The type of this text.
    #[tactic(auto, using(crate::proofs::laws::values::RejectLaws::reads_text))]
    pub fn read(text: &[u8]) -> Option<RejectType>
        ensures value { result ≡ reject_of text.now }
        ensures sound { IfSome result (λ answer. text.now ≡ reject_text answer) }
        ensures complete { (answer : RejectType) → text.now ≡ reject_text answer → result ≡ Some answer }
    {
        RejectType::named(text, &RejectType::ALL)
    }

    /// The text of the type, which reads back as this type.
    fn text(self) -> &'static [u8]
        ensures text { result.now ≡ reject_text self }
        ensures reads_back { reject_of (reject_text self) ≡ Some self }
    {
        match self {
            RejectType::NetUnreachable => b"icmp-net-unreachable",
            RejectType::HostUnreachable => b"icmp-host-unreachable",
            RejectType::PortUnreachable => b"icmp-port-unreachable",
            RejectType::ProtoUnreachable => b"icmp-proto-unreachable",
            RejectType::NetProhibited => b"icmp-net-prohibited",
            RejectType::HostProhibited => b"icmp-host-prohibited",
            RejectType::AdminProhibited => b"icmp-admin-prohibited",
            RejectType::TcpReset => b"tcp-reset",
        }
    }

    /// Writes the text. It takes no memory.
    pub fn put<W: Write>(self, output: &mut Tap<W>) -> Result<(), WriteFailed>
        ensures { Puts W.contents output.old output.new result (reject_text self) }
    {
        output.put(self.text())
    }
}
