ghost use Rattle.std.specs.Prelude.{◌≡◌, ◌++◌, ◌∷◌, [], List, ℕ, IfSome, IfNone, true, false};
ghost use Rattle.mc_requests.specs.Requests.{seen};
ghost use Rattle.millicent_http.specs.Fields.{at_most_one, first_of};
ghost use Rattle.millicent_http.specs.Occurs.{Occurred};

/// How often a field occurs, with its value.
#[derive(Drop)]
pub(crate) enum Occurs<'b> {
    Never,
    Once(&'b [u8]),
    Again,
}

impl<'b> Occurs<'b> {
    /// The value, if there is one. None where there are more.
    pub(crate) fn at_most_one(self) -> Option<Option<&'b [u8]>>
        ensures some { IfSome result (λ v. (values : List (List ℕ)) → Occurred values self.entry
            → (at_most_one values ≡ true) × (seen v ≡ first_of values)) }
        ensures none { IfNone result ((values : List (List ℕ)) → Occurred values self.entry
            → at_most_one values ≡ false) }
    {
        match self {
            Occurs::Never => Some(None),
            Occurs::Once(value) => Some(Some(value)),
            Occurs::Again => None,
        }
    }

    /// The same with one more value.
    pub(crate) fn and(self, value: &'b [u8]) -> Occurs<'b>
        ensures { (values : List (List ℕ)) → Occurred values self.entry
            → Occurred (values ++ value.now ∷ []) result }
    {
        match self {
            Occurs::Never => Occurs::Once(value),
            Occurs::Once(_) | Occurs::Again => Occurs::Again,
        }
    }
}
