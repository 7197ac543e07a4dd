ghost use Rattle.std.specs.Prelude.{◌≡◌, ◌^◌, ◌<◌, ℕ};
ghost use Rattle.httpdate.specs.declared.date.HttpDate.{HttpDate};
ghost use Rattle.httpdate.specs.Date.{unix_secs, date_text};
ghost use Rattle.mc_requests.specs.Dates.{date_of};

/// The date of a moment is the one that the crate `httpdate` makes of its second: there is such a
/// date, and each that has this second has this text.
pub fn date_of_its_second()
    ensures made { (moment : ℕ) → moment < 2 ^ 35 → (d : HttpDate) × (unix_secs d ≡ moment) × (date_text d ≡ date_of moment) }
    ensures only { (d : HttpDate) (moment : ℕ) → moment < 2 ^ 35 → unix_secs d ≡ moment → date_text d ≡ date_of moment }
{}
