ghost use Rattle.std.specs.Prelude.{◌≡◌, ◌<◌, ℕ, Bool, List, Result, Ok, Err, length, take};
ghost use Rattle.scrip_form.specs.Scrip.{Scrip};
ghost use Rattle.mc_records.specs.Entry.{Held, ArePieces};
ghost use Rattle.piece_lines.specs.PieceLines.{IsTold, input_lines};

/// What `input_lines` gives of some bytes are the pieces whose lines they are, or the line at which they
/// break; and no other list of pieces and no other line are.
pub fn input_lines_tell_the_input()
    ensures told { (test : Scrip → Bool) (bytes : List ℕ) → IsTold test bytes (input_lines test bytes) }
    ensures only { (test : Scrip → Bool) (bytes : List ℕ) (r : Result (List Held) ℕ)
        → IsTold test bytes r → r ≡ input_lines test bytes }
{}

/// The pieces of an input are those of a list of pieces, so that their elements are what `PieceList::read`
/// takes.
pub fn lines_are_of_pieces()
    ensures { (test : Scrip → Bool) (bytes : List ℕ) (pieces : List Held)
        → input_lines test bytes ≡ Ok pieces → ArePieces pieces }
{}

/// 256 lines have at most 83,712 bytes, so that a longer front of an input tells all of it.
pub fn fronts_tell_the_input()
    ensures { (test : Scrip → Bool) (bytes : List ℕ) (n : ℕ) → 83712 < n
        → input_lines test (take n bytes) ≡ input_lines test bytes }
{}

/// So an input of more than 83,712 bytes breaks at a line: it is never that of some pieces.
pub fn long_inputs_break()
    ensures { (test : Scrip → Bool) (bytes : List ℕ) → 83712 < length bytes
        → (line : ℕ) × (input_lines test bytes ≡ Err line) }
{}
