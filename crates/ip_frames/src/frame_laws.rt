//! Laws of frames, each proved as the contract of a call.
ghost use Rattle.std.specs.Prelude.{◌≡◌, ◌≤◌, ℕ, List, length};
ghost use Rattle.ip_frames.specs.Headers.{AreHeaders, Ending, headers_len};
ghost use Rattle.ip_frames.specs.declared.header.FrameHeader.{FrameHeader};
ghost use Rattle.ip_frames.specs.declared.header.Announced.{Announced};

/// Proves that bytes have exactly one list of headers after what was announced, and one end of it.
pub fn each_frame_has_one_list_of_headers()
    ensures some { (first : Announced) (b : List ℕ) → (hs : List FrameHeader) × ((e : Ending) × AreHeaders first b hs e) }
    ensures only { (first : Announced) (b : List ℕ) (hs gs : List FrameHeader) (e f : Ending)
        → AreHeaders first b hs e → AreHeaders first b gs f → (hs ≡ gs) × (e ≡ f) }
{}

/// Proves that all headers lie in the bytes.
pub fn headers_lie_in_the_frame()
    ensures { (first : Announced) (b : List ℕ) (hs : List FrameHeader) (e : Ending)
        → AreHeaders first b hs e → headers_len hs ≤ length b }
{}
