ghost use Rattle.std.specs.Prelude.{◌≡◌, ◌<◌, ◌≤◌, length};
ghost use Rattle.mc_records.specs.Entry.{AreSecrets, AreTerms};
ghost use Rattle.issuer_terms.specs.Terms.{are_same_terms};

use scrip_form::Terms;

/// Whether terms are the same, part by part.
pub fn are_same(a: &Terms, b: &Terms) -> bool
    ensures { result ≡ are_same_terms a.now b.now }
{
    a.issuer() == b.issuer()
        && a.period() == b.period()
        && a.life() == b.life()
        && a.scrip() == b.scrip()
        && a.customer() == b.customer()
}

/// The terms of an issuer above 0 are as an entry has them.
pub fn terms_fit(terms: &Terms)
    requires { 0 < terms.now.issuer }
    ensures { AreTerms 1 255 terms.now }
{
    // What the parts know of themselves.
    let _issuer = terms.issuer();
    let _period = terms.period();
    secrets_have_keys(terms.scrip());
    secrets_have_keys(terms.customer());
}

/// Secrets of 16 bytes each are as an entry has them.
fn secrets_have_keys(list: &[[u8; 16]])
    requires some { 0 < length list.now }
    requires few { length list.now ≤ 16 }
    ensures { AreSecrets list.now }
{}
