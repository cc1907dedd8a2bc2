//! Laws of the records of a classic capture file, each proved as the contract of a call.
ghost use Rattle.std.specs.Prelude.{◌≡◌, ℕ, List, ◌++◌, IsSome};
ghost use Rattle.std.specs.List.{concat};
ghost use Rattle.ip_captures.specs.Pieces.{ArePieces};
ghost use Rattle.ip_captures.specs.ClassicRecord.{IsRecord, AreLongestRecords, records_in, rest_of, same_header};
ghost use Rattle.ip_captures.specs.ClassicNext.{IsNext};
ghost use Rattle.ip_captures.specs.Next.{contents_of, error_of};
ghost use Rattle.ip_captures.specs.declared.classic_header.ClassicHeader.{ClassicHeader};
ghost use Rattle.ip_captures.specs.declared.classic_capture.ClassicCapture.{ClassicCapture};
ghost use Rattle.ip_captures.specs.declared.next.Next.{Next};

/// Proves that there is one longest list of records that begins some bytes, and that it has the records of any other such
/// list first.
pub fn one_longest_list_of_records()
    ensures some { (limit : ℕ) (h : ClassicHeader) (s : List ℕ)
        → AreLongestRecords limit h s (records_in limit h s) (rest_of limit h s) }
    ensures only { (limit : ℕ) (h : ClassicHeader) (s : List ℕ) (records others : List (List ℕ)) (rest other : List ℕ)
        → AreLongestRecords limit h s records rest → AreLongestRecords limit h s others other
        → (others ≡ records) × (other ≡ rest) }
    ensures longest { (limit : ℕ) (h : ClassicHeader) (s t rest : List ℕ) (records others : List (List ℕ))
        → AreLongestRecords limit h s records rest
        → ArePieces (IsRecord limit) same_header h others → s ≡ concat others ++ t
        → (more : List (List ℕ)) × (records ≡ others ++ more) }
{}

/// Proves that more bytes change no frame and no error: the longest list of records of more bytes begins with that of the
/// bytes before, and what comes next stays the frame or the error that it is.
pub fn more_bytes_change_no_record()
    ensures records { (limit : ℕ) (h : ClassicHeader) (s t rest other : List ℕ) (records others : List (List ℕ))
        → AreLongestRecords limit h s records rest → AreLongestRecords limit h (s ++ t) others other
        → (more : List (List ℕ)) × (others ≡ records ++ more) }
    ensures frame { (c : ClassicCapture) (s t : List ℕ) (x y : Next) → IsNext c s x → IsNext c (s ++ t) y
        → IsSome (contents_of x) → contents_of y ≡ contents_of x }
    ensures error { (c : ClassicCapture) (s t : List ℕ) (x y : Next) → IsNext c s x → IsNext c (s ++ t) y
        → IsSome (error_of x) → error_of y ≡ error_of x }
{}
