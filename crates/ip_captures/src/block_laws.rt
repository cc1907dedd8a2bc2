//! Laws of the blocks of a pcapng capture, each proved as the contract of a call.
ghost use Rattle.std.specs.Prelude.{◌≡◌, ◌<◌, ◌≤◌, ℕ, List, [], ◌∷◌, ◌++◌, length, take, drop, IsSome, Some, None};
ghost use Rattle.std.specs.List.{concat};
ghost use Rattle.ip_captures.specs.Pieces.{ArePieces, state_after};
ghost use Rattle.ip_captures.specs.Block.{Section, IsBlock, AreLongestBlocks, blocks_in, rest_of_blocks, section_after, frame_of_block};
ghost use Rattle.ip_captures.specs.BlockWriter.{IsSectionHeader, IsDescription, IsPacketBlock, packet_kept};
ghost use Rattle.ip_captures.specs.declared.byte_order.ByteOrder.{ByteOrder};
ghost use Rattle.ip_captures.specs.declared.interface.Interface.{Interface};
ghost use Rattle.ip_captures.specs.declared.block_writer.EnhancedPacket.{EnhancedPacket};
ghost use Rattle.ip_captures.specs.PcapngNext.{IsNextBlock, section_next, record_len_of};
ghost use Rattle.ip_captures.specs.Next.{contents_of, error_of};
ghost use Rattle.ip_captures.specs.declared.next.Next.{Next};

/// Proves that there is one longest list of blocks that begins some bytes, and that it has the blocks of any other such list
/// first.
pub fn one_longest_list_of_blocks()
    ensures some { (limit room : ℕ) (c : Section) (s : List ℕ)
        → AreLongestBlocks limit room c s (blocks_in limit room c s) (rest_of_blocks limit room c s) }
    ensures only { (limit room : ℕ) (c : Section) (s : List ℕ) (blocks others : List (List ℕ)) (rest other : List ℕ)
        → AreLongestBlocks limit room c s blocks rest → AreLongestBlocks limit room c s others other
        → (others ≡ blocks) × (other ≡ rest) }
    ensures longest { (limit room : ℕ) (c : Section) (s t rest : List ℕ) (blocks others : List (List ℕ))
        → AreLongestBlocks limit room c s blocks rest
        → ArePieces (IsBlock limit room) section_after c others → s ≡ concat others ++ t
        → (more : List (List ℕ)) × (blocks ≡ others ++ more) }
{}

/// Proves that calls of `next` return the longest list of blocks, one by one: a call returns the first one, and leads to the
/// section and the bytes after it, or there is none.
pub fn next_returns_the_first_block()
    ensures some { (limit room offset k : ℕ) (c : Section) (s : List ℕ) (x : Next) → IsNextBlock limit room c offset s x
        → record_len_of x ≡ Some k
        → blocks_in limit room c s ≡ take k s ∷ blocks_in limit room (section_next c s x) (drop k s) }
    ensures none { (limit room offset : ℕ) (c : Section) (s : List ℕ) (x : Next) → IsNextBlock limit room c offset s x
        → record_len_of x ≡ None → blocks_in limit room c s ≡ [] }
{}

/// Proves that more bytes change no block: the longest list of blocks of more bytes begins with that of the bytes before, and
/// what comes next stays the frame that it is.
pub fn more_bytes_change_no_block()
    ensures blocks { (limit room : ℕ) (c : Section) (s t rest other : List ℕ) (blocks others : List (List ℕ))
        → AreLongestBlocks limit room c s blocks rest → AreLongestBlocks limit room c (s ++ t) others other
        → (more : List (List ℕ)) × (others ≡ blocks ++ more) }
    ensures frame { (limit room offset : ℕ) (c : Section) (s t : List ℕ) (x y : Next) → IsNextBlock limit room c offset s x
        → IsNextBlock limit room c offset (s ++ t) y → IsSome (contents_of x) → contents_of y ≡ contents_of x }
    ensures error { (limit room offset : ℕ) (c : Section) (s t : List ℕ) (x y : Next) → IsNextBlock limit room c offset s x
        → IsNextBlock limit room c offset (s ++ t) y → IsSome (error_of x) → error_of y ≡ error_of x }
{}

/// Proves that written blocks are read again: of blocks that are joined, with any bytes after them, these blocks come first, and
/// then those of the section to which they lead.
pub fn joined_blocks_are_read_again()
    ensures { (limit room : ℕ) (c : Section) (blocks : List (List ℕ)) (t : List ℕ)
        → ArePieces (IsBlock limit room) section_after c blocks
        → blocks_in limit room c (concat blocks ++ t) ≡ blocks ++ blocks_in limit room (state_after section_after c blocks) t }
{}

/// Proves that what is written is read again: a section header, descriptions of interfaces and packets, each as `IsSectionHeader`,
/// `IsDescription` and `IsPacketBlock` say, with any bytes after it.
pub fn written_blocks_are_read_again()
    ensures section { (limit room : ℕ) (c : Section) (o : ByteOrder) (b t : List ℕ) → IsSectionHeader o b → length b ≤ limit
        → blocks_in limit room c (b ++ t) ≡ b ∷ blocks_in limit room (record { order = o; interfaces = [] }) t }
    ensures interface { (limit room : ℕ) (c : Section) (i : Interface) (b t : List ℕ) → IsDescription c.order i b → length b ≤ limit
        → length c.interfaces < room
        → blocks_in limit room c (b ++ t) ≡ b ∷ blocks_in limit room (record c { interfaces = c.interfaces ++ i ∷ [] }) t }
    ensures packet { (limit room : ℕ) (c : Section) (p : EnhancedPacket) (b t : List ℕ) → IsPacketBlock c.order p b → length b ≤ limit
        → p.interface < length c.interfaces
        → (blocks_in limit room c (b ++ t) ≡ b ∷ blocks_in limit room c t)
        × (frame_of_block c b ≡ Some (packet_kept c.interfaces p (length b))) }
{}
