ghost use Rattle.std.specs.Prelude.{◌≡◌, ◌++◌, ◌∷◌, [], List, ℕ, Some, None, if◌then◌else◌, map, IsSome, OnOk};

use mc_base::NoMemory;
use std::alloc::Global;
use std::marker::Model;

/// The targets of goods that are on sale, in the order in which each was put on sale first. A target is listed in two
/// steps, so that the second can't fail: `reserve` makes room for it, and `list` puts it behind the others.
///
/// Contracts see them as the record `TargetsView`: the targets, and the one for which there is room.
#[derive(Drop)]
pub(crate) struct Targets {
    listed: Vec<Vec<u8>>,
    next: Option<Vec<u8>>,
    alloc: Global,
}

impl Model for Targets {
    ghost use Rattle.std.specs.Prelude.{IsSome, ◌<◌, map, option_map, vec_len, vec_capacity};
    ghost use Rattle.vendor_core.specs.Targets.{TargetsView};

    ghost Value = { TargetsView };

    ghost view = { λ t. record { listed = map (λ v. v.items) t.listed.items; next = option_map (λ v. v.items) t.next } };

    ghost invariant = { λ t. IsSome t.next → vec_len t.listed < vec_capacity t.listed };
}

impl Targets {
    /// No targets. It takes no memory.
    pub(crate) fn new(alloc: Global) -> Targets
        ensures listed { result.listed ≡ [] }
        ensures next { result.next ≡ None }
    {
        Targets {
            listed: Vec::new(alloc),
            next: None,
            alloc,
        }
    }

    /// Makes room for a target, in place of the one for which there was room. Those that are listed stay, also after an
    /// `Err`.
    pub(crate) fn reserve(&mut self, target: &[u8]) -> Result<(), NoMemory>
        ensures room { OnOk result (self.new.next ≡ Some target.now) }
        ensures listed { self.new.listed ≡ self.old.listed }
    {
        let bytes = Vec::from_slice(self.alloc, target)?;
        self.listed.reserve(1)?;
        self.next = Some(bytes);
        Ok(())
    }

    /// Lists the target for which there is room behind the others, where it is new. It takes no memory.
    pub(crate) fn list(&mut self, is_new: bool)
        requires { IsSome self.old.next }
        ensures { (target : List ℕ) → self.old.next ≡ Some target
            → self.new.listed ≡ (if is_new then self.old.listed ++ target ∷ [] else self.old.listed) }
    {
        let target = self.next.take().unwrap();
        if is_new {
            self.listed.push_reserved(target);
        }
    }

    /// The targets that are listed.
    pub(crate) fn all(&self) -> &[Vec<u8>]
        ensures { map (λ v. v.items) result.now ≡ self.now.listed }
    {
        &self.listed
    }
}
