ghost use Rattle.std.specs.Prelude.{◌≡◌};
ghost use Rattle.scrip_form.specs.Scrip.{IsScripText};

use crate::scrip_ref::ScripRef;
use crate::small_text::SmallText;
use std::marker::Model;

/// A scrip text that is kept, as a copy of at most 293 bytes. Contracts see it as its bytes.
#[derive(Clone, Copy)]
pub struct ScripText {
    text: SmallText<293>,
}

impl Model for ScripText {
    ghost use Rattle.std.specs.Prelude.{ℕ, List};
    ghost use Rattle.scrip_form.specs.Scrip.{IsScripText};

    ghost Value = { List ℕ };

    ghost view = { λ t. t.text };

    ghost invariant = { λ t. IsScripText t.text };

    ghost inverse = { λ bytes. record { text = bytes } };
}

impl ScripText {
    /// The text of what was read.
    pub fn of(scrip: &ScripRef<'_>) -> ScripText
        ensures { result ≡ scrip.now.text }
    {
        ScripText {
            text: SmallText::of(scrip.text()),
        }
    }

    /// The bytes of the text.
    pub fn bytes(&self) -> &[u8]
        ensures value { result.now ≡ self.now }
        ensures text { IsScripText self.now }
    {
        self.text.bytes()
    }
}
