//! Laws of memory whose bytes are 0, proved as the contract of a call.
ghost use Rattle.std.specs.Prelude.{◌≡◌, ℕ, List, length, min, true};
ghost use Rattle.ip_reassembly.specs.Received.{received_none};
ghost use Rattle.ip_reassembly.specs.Reassembly.{HasArrived, IsZero};
ghost use Rattle.ip_reassembly.specs.declared.state.ReassemblyState.{ReassemblyState};

/// Proves that nothing has arrived in a state of zeros, with any buffer, and that a conflict abandons its packet.
pub fn zeros_are_a_new_state()
    ensures { (r : ReassemblyState) (b : List ℕ) → IsZero r
        → HasArrived r b (received_none (min (length b) 65535) true) }
{}
