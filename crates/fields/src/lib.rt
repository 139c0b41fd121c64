//! What the crates above share: the words of a line, the values of packets and rules with their readers and texts,
//! sets of numbers, readers and writers that remember a failure, and readers and writers over memory that fail where
//! a test wants it.
#![tactic(auto)]

mod devices;
mod numbers;
mod packet;
mod text;
mod values;

pub use devices::fuse::{Failure, Fuse};
pub use devices::fused_reader::FusedReader;
pub use devices::fused_writer::FusedWriter;
pub use numbers::field::{FIELDS, Field};
pub use numbers::spans::{Interval, Spans, canonical_is_unique};
pub use packet::hook::Hook;
pub use packet::{Packet, PacketFault};
pub use text::cut::cut_at;
pub use text::line::{LineEnd, LineRead};
pub use text::number::{read_number, read_number_to};
pub use text::tap::{ReadFailed, Tap, WriteFailed};
pub use text::word_slice::WordSlice;
pub use text::words::{WordFault, Words};
pub use values::connection_state::CtSet;
pub use values::flag_test::FlagTest;
pub use values::free_text::Text;
pub use values::icmp::IcmpType;
pub use values::interface::IfPattern;
pub use values::ip_range::IpRange;
pub use values::log_level::LogLevel;
pub use values::name::Name;
pub use values::port_list::PortList;
pub use values::port_range::PortRange;
pub use values::prefix::{Prefix, read_address};
pub use values::protocol::Protocol;
pub use values::reject::RejectType;
pub use values::tcp_flags::TcpFlags;
pub use values::ttl::Ttl;
