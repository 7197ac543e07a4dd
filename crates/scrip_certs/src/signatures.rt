ghost use Rattle.std.specs.Prelude.{◌≡◌, ◌++◌, ℕ, List};
ghost use Rattle.scrip_certs.specs.Digests as digests;
ghost use Rattle.scrip_certs.specs.Digests.{line, request_text};
ghost use Rattle.scrip_certs.specs.Hashing.{Hashes};

use crate::hasher::Hasher;

/// The signature of a request for a target, under the secret of the customer: the digest of the scrip
/// text, the request text and the secret, with a line feed after each text, in the version of the scrip text.
#[tactic(auto, unfolding(crate::specs::Digests::request_signature))]
pub fn sign_request(scrip: &[u8], target: &[u8], secret: &[u8; 16]) -> [u8; 16]
    ensures { result ≡ digests.request_signature scrip.now target.now secret.now }
{
    let mut hasher = Hasher::of_text(scrip);
    add_request(&mut hasher, scrip, target);
    hasher.update(secret);
    hasher.finalize()
}

/// The signature of the reply to such a request: the digest of the scrip text, the request text, the
/// reply text and the secret, with a line feed after each text. The reply text is its head, which
/// ends in a line feed of its own, and the contents.
#[tactic(auto, unfolding(crate::specs::Digests::reply_signature))]
pub fn sign_reply(
    scrip: &[u8],
    target: &[u8],
    head: &[u8],
    contents: &[u8],
    secret: &[u8; 16],
) -> [u8; 16]
    ensures { result ≡ digests.reply_signature scrip.now target.now head.now contents.now secret.now }
{
    let mut hasher = Hasher::of_text(scrip);
    add_request(&mut hasher, scrip, target);
    hasher.update(head);
    hasher.update(contents);
    hasher.update(b"\n");
    hasher.update(secret);
    hasher.finalize()
}

/// Adds the scrip text and the request text, each with its line feed: what every signature begins with.
pub fn add_request(hasher: &mut Hasher, scrip: &[u8], target: &[u8])
    ensures { (version : ℕ) (m : List ℕ) → Hashes hasher.old version m
        → Hashes hasher.new version (m ++ (line scrip.now ++ line (request_text target.now))) }
{
    hasher.update(scrip);
    hasher.update(b"\nGET ");
    hasher.update(target);
    hasher.update(b"\n");
}
