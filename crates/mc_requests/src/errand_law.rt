//! What the texts of errands are.

ghost use Rattle.std.specs.Prelude.{◌≡◌, List, ℕ, Some};
ghost use Rattle.scrip_form.specs.Texts.{IsTarget};
ghost use Rattle.mc_requests.specs.Errands.{Errand, IsErrand, errand_text, errand_of};

/// A target is read as an errand where it is that errand's text, and nowhere else; each errand's text is a target.
pub fn errands_are_texts()
    ensures told { (target : List ℕ) (e : Errand) → errand_of target ≡ Some e
        → IsErrand e × (target ≡ errand_text e) }
    ensures read { (e : Errand) → IsErrand e → errand_of (errand_text e) ≡ Some e }
    ensures target { (e : Errand) → IsErrand e → IsTarget (errand_text e) }
{}
