ghost use Rattle.std.specs.Prelude.{◌≡◌, ◌<◌, ℕ, List, Result, Err, length};
ghost use Rattle.scrip_form.specs.Issuing.{Issuing};
ghost use Rattle.licence_lines.specs.Licences.{IsTold};

/// An input is the line of one licence, or breaks at one line.
pub fn inputs_are_of_one_licence()
    ensures { (bytes : List ℕ) (a b : Result (List ℕ × Issuing) ℕ) → IsTold bytes a → IsTold bytes b
        → a ≡ b }
{}

/// A licence line has at most 1,150 bytes, so that a longer input breaks at a line: it is never that of a licence.
pub fn long_inputs_break()
    ensures { (bytes : List ℕ) (r : Result (List ℕ × Issuing) ℕ) → 1150 < length bytes
        → IsTold bytes r → (line : ℕ) × (r ≡ Err line) }
{}
