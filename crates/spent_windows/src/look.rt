ghost use Rattle.std.specs.Prelude.{◌≡◌};

use crate::windows::Windows;
use scrip_form::Id;
use std::marker::Model;
use std::snapshot::Snapshot;

/// A proof that windows were asked for an identity, and that it wasn't marked. Only [`Windows::has`]
/// makes one, and it can't be copied. It keeps nothing of the windows at run time. Contracts see it as
/// the record `FreshView`: the identity, and the windows as they were at that call, so that
/// `is_marked` of these tells which identities were marked then.
#[derive(Drop)]
pub struct Fresh {
    id: Id,
    seen: Snapshot<Windows>,
}

impl Model for Fresh {
    ghost use Rattle.spent_windows.specs.Fresh.{FreshView};

    ghost Value = { FreshView };

    ghost view = { λ f. record { id = f.id; seen = f.seen.value } };
}

impl Fresh {
    /// What a look at these windows tells where the identity isn't marked.
    pub(crate) fn of(id: Id, windows: &Windows) -> Fresh
        ensures { result ≡ record { id = id; seen = windows.now } }
    {
        Fresh {
            id,
            seen: Snapshot::of(windows),
        }
    }

    /// The identity that was asked for.
    pub fn id(&self) -> Id
        ensures { result ≡ self.now.id }
    {
        self.id
    }
}

/// What [`Windows::has`] answers.
#[derive(Drop)]
pub enum Look {
    /// The identity is marked.
    Marked,
    /// It isn't, and this is the proof of it.
    New(Fresh),
}
