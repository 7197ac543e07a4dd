//! What a refusal means, and what to do: a sentence for each number.

/// That of a refusal of this number with which a command ends; None where more is told of it than a sentence.
pub(crate) fn advice(number: u64) -> Option<&'static str> {
    match number {
        30..=61 => book_advice(number),
        62..=68 | 80 => wallet_advice(number),
        _ => settlement_advice(number),
    }
}

/// That of a refusal of what an operator enters, or a wallet takes.
fn book_advice(number: u64) -> Option<&'static str> {
    Some(match number {
        30 => "nothing is on sale at this target, so it has no price: vendor goods first",
        32 => "the series has no room for so many pieces: mint in the next period",
        33 => "the book has no room for the entry: it may have 2^40 bytes",
        40 => "there is no account of this name: broker account opens one",
        42 => "the account holds less than that: the number is its balance",
        43 => "the broker has no licence of this vendor and issuer: whose statement is it?",
        45 => "the account can't hold more than 2^60: the number is its balance",
        50 =>
            "the file is not empty, and stays as it is: it may be founded already, else take another name",
        55 => "the issuer has other terms, and keeps them: take another ISSUER",
        56 =>
            "this REFERENCE was given with other words before: is it the same receipt? else take a new one",
        57 =>
            "a piece of the lines came in before, or is there twice; nothing was entered: was it done before?",
        59 => "the vendor gave another licence before, with this issuer, and it stays",
        60 => "the account has another key, and keeps it: take another name",
        61 => "a piece of the lines was in the wallet before, or is there twice; nothing was taken",
        _ => return None,
    })
}

/// That of a refusal with which a wallet's request ends.
fn wallet_advice(number: u64) -> Option<&'static str> {
    Some(match number {
        63 => "the site was not reached: is it served, and is CONNECT its address?",
        64 => "the link ended before the whole reply had come: the site may have taken the request",
        65 => "what came is no right reply of a site: is CONNECT its address, and is it served?",
        66 =>
            "the reply is not signed with the secret of the piece, or the key of the draw: anybody may have sent it",
        67 => "no request to this site waits for a reply, so there is none to send again",
        80 => "no held piece of this vendor ends at BEFORE or earlier, so there is none to renew",
        _ => return None,
    })
}

/// That of a refusal about books together, epochs and statements.
fn settlement_advice(number: u64) -> Option<&'static str> {
    Some(match number {
        70 => "the broker sold scrip of that vendor: give the vendor's book, too",
        71 => "there is no licence for it: vendor licence, or broker licence, first",
        72 => "the issuer goes over, or went over, with the epoch of this number, and keeps it",
        73 => "that epoch has begun: the number is the present one, take a later one",
        75 => "its digest is not by the licence's secret: ask the vendor for the line again",
        76 => "so much was paid for this epoch before, and stays: a vendor states one amount only",
        77 => "it is more than you sold of the epoch: has another broker the same licence?",
        _ => return None,
    })
}

/// What the refusal of this number means that a site signed.
pub(crate) fn site_advice(number: u64) -> Option<&'static str> {
    Some(match number {
        26 => "the piece had ended: it is dead now, and pays no more",
        27 =>
            "the piece was paid with before, so it is disputed now: was it by a copy of this wallet?",
        30 => "the site has nothing at this target; the piece is held as before",
        31 => "the piece is worth less than the price: take a greater limit; it is held as before",
        32 | 33 => "the site can take nothing more at present; the piece is held as before",
        40 => "there is no account of this name; the piece is held as before",
        41 => "ORDER is not above the last one of the account: take a greater one",
        42 => "the account holds less than AMOUNT",
        43 => "the broker has no scrip of this vendor; the piece is held as before",
        44 =>
            "the broker has no piece of this AMOUNT at present: try others; yours is held as before",
        45 => "the account can't hold more than 2^60; the piece is held as before",
        _ => return None,
    })
}

/// What the refusal of this number means in a reply that nobody signed, if it is the site's.
pub(crate) fn unproved_advice(number: u64) -> Option<&'static str> {
    Some(match number {
        22 => "if it is the site's, CONNECT leads to another one than PEER",
        29 =>
            "if it is the site's, the key or the secret is wrong, and no reply will ever settle the request",
        34 =>
            "if it is the site's, only one of vendor and broker went over to the other version: ask the broker",
        40 => "if it is the site's, ACCOUNT is wrong, and no reply will ever settle the request",
        90 | 91 => "if it is the site's, it has no memory, or its disk failed: ask again later",
        _ => return None,
    })
}
