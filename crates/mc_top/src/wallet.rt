//! What a customer has done with the book of a wallet.

ghost use Rattle.std.specs.Prelude.{◌≡◌};
ghost use Rattle.command_status.specs.Statuses.{number_of};
ghost use Rattle.wallet_core.specs.Asks.{asking_of, HasAmounts};
ghost use Rattle.mc_top.specs.Wallets.{WorksOn, bought, drawn, got};

use command_status::Status;
use mc_outside::Outside;
use std::alloc::Global;
use wallet_commands::{chain, list, list_held, pay, renew, retry, take};
use wallet_core::Ask;
use wallet_words::{Buying, Drawing, Getting, WalletOperation};

/// Has something done with the book of a wallet, and tells how it ended.
pub(crate) fn work<O: Outside>(
    alloc: Global,
    operation: &WalletOperation<'_>,
    out: O,
) -> (O, Status)
    ensures worked { WorksOn O.link O.disk operation.now out result.1 result.0 }
    ensures words { number_of result.1 ≡ 2 → ⊥ }
{
    match operation {
        WalletOperation::Take(_) => take(alloc, out),
        WalletOperation::Draw(drawing) => pay(alloc, &draw_of(drawing), out),
        WalletOperation::Buy(buying) => pay(alloc, &buy_of(buying), out),
        WalletOperation::Get(getting) => pay(alloc, &get_of(getting), out),
        WalletOperation::Retry(retrying) => retry(alloc, retrying.peer(), out),
        WalletOperation::List(_) => list(alloc, out),
        WalletOperation::Lines(relaying) => list_held(alloc, relaying.vendor(), out),
        WalletOperation::Chain(_) => chain(alloc, out),
        WalletOperation::Renew(renewing) => renew(
            alloc,
            renewing.vendor(),
            renewing.target(),
            renewing.before(),
            out,
        ),
    }
}

fn draw_of(drawing: &Drawing<'_>) -> Ask
    ensures asks { asking_of result ≡ drawn drawing.now }
    ensures amounts { HasAmounts result }
{
    Ask::Draw {
        broker: *drawing.broker(),
        account: *drawing.account(),
        key: drawing.key(),
        order: drawing.order(),
        amount: drawing.amount(),
    }
}

fn buy_of(buying: &Buying<'_>) -> Ask
    ensures asks { asking_of result ≡ bought buying.now }
    ensures amounts { HasAmounts result }
{
    Ask::Buy {
        broker: *buying.broker(),
        vendor: *buying.vendor(),
        amount: buying.amount(),
        limit: buying.limit(),
    }
}

fn get_of(getting: &Getting<'_>) -> Ask
    ensures asks { asking_of result ≡ got getting.now }
    ensures amounts { HasAmounts result }
{
    Ask::Get {
        vendor: *getting.vendor(),
        target: *getting.target(),
        limit: getting.limit(),
    }
}
