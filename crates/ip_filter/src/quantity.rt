//! The numbers that a packet has.
ghost use Rattle.std.specs.Prelude.{◌≡◌};
ghost use Rattle.ip_dissect.specs.Dissection.{dissected};
ghost use Rattle.ip_filter.specs.Truth.{of_packet, quantity_of, lacks_length};

use crate::Quantity;
use crate::by_base::{dscp, ecn, flow_label, hop_limit, start_of};
use crate::facts::Facts;

impl Facts<'_> {
    /// Returns the quantity, if the packet has it.
    #[inline(always)]
    pub(crate) fn quantity(&self, quantity: Quantity) -> Option<u64>
        ensures { result ≡ quantity_of quantity (dissected self.now.packet.bytes.now) }
    {
        let summary = &self.packet.summary;
        match quantity {
            Quantity::Headers => self.of_packet(summary.header_count),
            Quantity::ChainBytes => self.of_packet(summary.extensions_len),
            Quantity::Payload => self.of_packet(summary.payload_len),
            Quantity::Length => match summary.stated_len {
                Some(len) => Some(len as u64),
                None => self.of_packet(self.packet.bytes.len() - summary.padding_len),
            },
            Quantity::HopLimit => hop_limit(&start_of(&self.packet)),
            Quantity::Dscp => dscp(&start_of(&self.packet)),
            Quantity::Ecn => ecn(&start_of(&self.packet)),
            Quantity::FlowLabel => flow_label(&start_of(&self.packet)),
        }
    }

    /// Returns whether the base header states no length, although bytes follow it.
    #[inline(always)]
    pub(crate) fn lacks_length(&self) -> bool
        ensures { result ≡ lacks_length (dissected self.now.packet.bytes.now) }
    {
        let summary = &self.packet.summary;
        summary.version != 0
            && summary.stated_len.is_none()
            && (summary.header_count > 0 || summary.payload_len > 0)
    }

    /// Returns the number, if there is a base header.
    #[inline(always)]
    fn of_packet(&self, number: usize) -> Option<u64>
        ensures { result ≡ of_packet number (dissected self.now.packet.bytes.now) }
    {
        if self.packet.summary.version == 0 {
            None
        } else {
            Some(number as u64)
        }
    }
}
