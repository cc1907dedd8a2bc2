//! Finds the IP packet in a frame of a link layer. Nothing is copied or allocated.
//!
//! | To | Call |
//! |---|---|
//! | find it by a link type, a LINKTYPE_ or DLT_ value | `find_ip` |
//! | find it after an EtherType, as tunnels have them | `find_ip_after` |
//! | get one header at a time | `first_header`, `read_header` |
//!
//! After MPLS no number says what follows: a packet is IP there if its first four bits are 4 or 6. Each header is
//! defined with its document in `specs`. A list of headers leads from the start of the frame to the end that is
//! returned (`LeadsTo`), at the sum of their lengths. Each frame has exactly one such list
//! (`each_frame_has_one_list_of_headers`), within its bytes (`headers_lie_in_the_frame`).
//!
//! `packet_in` in `check_uses/src/frames.rt` is a caller.
#![tactic(auto)]

mod ethernet;
mod find;
mod frame_contents;
mod frame_fields;
mod frame_laws;
mod header;
mod juniper;
mod link_type;
mod protocol_number;
mod radio;
mod read;
mod serial;
mod system;

pub use find::{find_ip, find_ip_after, store_ip};
pub use frame_contents::{FrameContents, FrameEnd, VlanTags};
pub use frame_fields::FrameFields;
pub use frame_laws::{each_frame_has_one_list_of_headers, headers_lie_in_the_frame};
pub use header::{Announced, FrameHeader, HeaderKind, HeaderReading};
pub use link_type::first_header;
pub use protocol_number::ProtocolNumber;
pub use read::read_header;
