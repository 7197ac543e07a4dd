ghost use Rattle.std.specs.Prelude.{◌≡◌};
ghost use Rattle.std.specs.Borrow.{ftrue};
ghost use Rattle.mc_outside.specs.LinkView.{LinkView};
ghost use Rattle.play_heads.specs.Standing.{IsStanding};
ghost use Rattle.play_heads.specs.Telling.{link_view_code, no_links};

use mc_base::Moment;
use std::marker::Model;

/// What the links mean, as a value that only contracts read. It has no bytes, and its methods do nothing at
/// run time.
#[derive(Drop)]
pub(crate) struct Told {
    pub(crate) ghost view: { LinkView } by { link_view_code },
}

impl Model for Told {
    ghost also_owns = { λ _. ftrue };
}

/// What the links mean, with what holds of it at each moment.
#[derive(Drop)]
pub(crate) struct Telling {
    pub(crate) told: Told,
    pub(crate) ghost standing: { IsStanding told.view },
}

/// One call of a link.
#[derive(Clone, Copy, Drop)]
pub(crate) enum Note<'a> {
    Taken,
    NoneLeft,
    Received(&'a [u8]),
    ReadToEnd,
    Sent(&'a [u8]),
    Ended,
    Said(&'a [u8]),
    Read(Moment),
}

impl Told {
    ghost use Rattle.play_heads.specs.Telling.{noted};

    /// Nothing was called yet.
    pub(crate) fn nothing() -> Told
        ensures { result.view ≡ no_links }
    {
        Told {}
    }

    /// One call more.
    #[inline(always)]
    pub(crate) fn then(&self, _note: &Note<'_>) -> Told
        ensures { result.view ≡ noted self.now.view _note.now }
    {
        Told {}
    }
}

impl Telling {
    ghost use Rattle.play_heads.specs.Telling.{noted};

    /// Nothing was called yet.
    pub(crate) fn nothing() -> Telling
        ensures { result.told.view ≡ no_links }
    {
        Telling {
            told: Told::nothing(),
        }
    }

    /// One call more.
    pub(crate) fn note(&mut self, note: &Note<'_>)
        ensures { self.new.told.view ≡ noted self.old.told.view note.now }
    {
        self.told = self.told.then(note);
    }
}
