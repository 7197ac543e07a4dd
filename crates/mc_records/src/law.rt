ghost use Rattle.std.specs.Prelude.{◌≡◌, ℕ, ◌<◌, List, ◌∷◌, ◌++◌, length, Err};
ghost use Rattle.mc_records.specs.Entry.{Entry, Fits, payload};
ghost use Rattle.mc_records.specs.Forms.{entry_of};
ghost use Rattle.mc_records.specs.declared.sizes.TheConstants.{PAYLOAD_BOUND};

/// No payload is a prefix of another.
pub fn no_payload_begins_another()
    ensures { (e f : Entry) (x y : List ℕ) → Fits e → Fits f → payload e ++ x ≡ payload f ++ y → (e ≡ f) × (x ≡ y) }
{}

/// Where more bytes follow a whole payload, the place of the fault is its length.
pub fn bytes_after_a_payload()
    ensures { (e : Entry) (b : ℕ) (bs : List ℕ) → Fits e → entry_of (payload e ++ b ∷ bs) ≡ Err (length (payload e)) }
{}

/// Every payload is shorter than 131,066 bytes.
pub fn payloads_are_short()
    ensures { (e : Entry) → Fits e → length (payload e) < PAYLOAD_BOUND }
{}
