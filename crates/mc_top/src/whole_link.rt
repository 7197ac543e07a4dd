ghost use Rattle.std.specs.Prelude.{◌≡◌, ◌≢◌, ◌⊎◌, [], map, string_bytes};
ghost use Rattle.site_words.specs.Words.{Shop as Sold};
ghost use Rattle.site_words.specs.Commands.{AreOnceWords, AreNoOnceWords};
ghost use Rattle.vendor_commands.specs.Session.{IsSession};

use command_status::Status;
use site_words::shop_of;
use std::alloc::Global;
use vendor_commands::reply_to_all;

/// `vendor once` over a whole link whose bytes are all there: the replies that [`run`](crate::run) sends,
/// at the end of an empty `reply`, and the status.
///
/// 0: the reply is the session of the link, from no history on. 2: the words, those after the
/// program's name, are not `vendor once NAME TARGET PRICE SECRET CONTENTS`. 5: memory was refused, to
/// read the words, to open the shop or to put the replies together; memory that is refused to accept a request is a reply
/// with refusal 90 (`503`), and the session goes on. With 2 and 5 the reply stays empty.
pub fn once(alloc: Global, words: &[String], link: &[u8], reply: &mut Vec<u8>) -> u8
    requires { reply.old.items ≡ [] }
    ensures statuses { (result ≡ 0) ⊎ ((result ≡ 2) ⊎ (result ≡ 5)) }
    ensures words { result ≡ 2 → AreNoOnceWords (map string_bytes words.now) }
    ensures bad_words { AreNoOnceWords (map string_bytes words.now)
        → (result ≡ 2) ⊎ (result ≡ 5) }
    ensures served { result ≡ 0 → (shop : Sold) × AreOnceWords (map string_bytes words.now) shop
        × IsSession shop link.now reply.new.items }
    ensures nothing { result ≢ 0 → reply.new.items ≡ [] }
{
    let shop = match shop_of(alloc, words) {
        Ok(Some(shop)) => shop,
        Ok(None) => return Status::BadWords.number(),
        Err(_) => return Status::NoMemory.number(),
    };
    match reply_to_all(alloc, &shop, link, reply) {
        Ok(()) => Status::Done.number(),
        Err(_) => {
            reply.clear();
            Status::NoMemory.number()
        }
    }
}
