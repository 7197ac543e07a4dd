//! A world that plays, and its steps.

ghost use Rattle.std.specs.Prelude.{◌≡◌, OnOk};
ghost use Rattle.mc_requests.specs.declared.limits.Limits.{Limits as Bounds};
ghost use Rattle.mc_requests.specs.Limits.{AreInRange};
ghost use Rattle.world_model.specs.Worlds as worlds;
ghost use Rattle.world_model.specs.Worlds.{Happens};
ghost use Rattle.world_model.specs.Conservation.{AreLawful};
ghost use Rattle.wallet_core.specs.Asks.{asking_of};
ghost use Rattle.mc_world.specs.Games.{world_of, event_of};

use crate::entering::enter;
use crate::event::Event;
use crate::house::{House, deliver};
use crate::wallet::{ask, send_again, take_reply};
use ledger_model::History;
use mc_base::{Moment, NoMemory};
use mc_requests::Limits;
use scrip_form::Name;
use std::alloc::Global;
use std::marker::Model;
use std::mem;
use std::vec::Vec;
use wallet_core::Ask;

/// A message, with the number of the wallet that sent it; None where it was forged.
#[derive(Drop)]
pub(crate) struct Sent {
    pub(crate) bytes: Vec<u8>,
    pub(crate) sender: Option<u32>,
}

impl Model for Sent {
    ghost use Rattle.world_model.specs.Worlds.{Message};

    ghost Value = { Message };

    ghost view = { λ m. record { bytes = m.bytes.items; sender = m.sender } };
}

impl Sent {
    /// Its bytes.
    pub(crate) fn into_bytes(self) -> Vec<u8>
        ensures { result.items ≡ self.bytes }
    {
        let Sent { bytes, sender: _ } = self;
        bytes
    }
}

/// Houses and wallets, and all messages and replies that were ever sent.
#[derive(Drop)]
pub(crate) struct Game {
    pub(crate) alloc: Global,
    pub(crate) houses: Vec<House>,
    pub(crate) wallets: Vec<History>,
    pub(crate) messages: Vec<Sent>,
    pub(crate) replies: Vec<Vec<u8>>,
}

/// Carries an event out. An `Err` leaves anything.
pub(crate) fn step(game: &mut Game, limits: Limits, event: &Event) -> Result<(), NoMemory>
    requires range { AreInRange limits }
    requires lawful { AreLawful limits (world_of game.old) }
    ensures happens { OnOk result (Happens limits (world_of game.old) (event_of event.now) (world_of game.new)) }
{
    match event {
        Event::Enter { house, payload } => enter_at(game, limits, *house, payload),
        Event::Ask {
            wallet,
            ask,
            reading,
        } => ask_at(game, limits, *wallet, ask, *reading),
        Event::Again { wallet, peer } => send_again_at(game, limits, *wallet, peer),
        Event::Forge { bytes } => forge(game, bytes),
        Event::Tell { bytes } => tell(game, bytes),
        Event::Deliver {
            message,
            house,
            reading,
        } => deliver_at(game, limits, *message, *house, *reading),
        Event::Return {
            reply,
            wallet,
            request,
            reading,
        } => return_to(game, limits, *reply, *wallet, *request, *reading),
        Event::Restart { party } => restart(game, limits, *party),
    }
}

/// What is asked of a wallet, if it is there.
fn ask_at(
    game: &mut Game,
    limits: Limits,
    wallet: u32,
    asked: &Ask,
    reading: u64,
) -> Result<(), NoMemory>
    requires lawful { AreLawful limits (world_of game.old) }
    ensures happens { OnOk result (Happens limits (world_of game.old) (worlds.Ask wallet (asking_of asked.now) reading) (world_of game.new)) }
{
    let place = wallet as usize;
    if place >= game.wallets.len() {
        return Ok(());
    }
    let Some(bytes) = ask(game.alloc, &mut game.wallets[place], limits, asked, reading)? else {
        return Ok(());
    };
    game.messages.push(Sent {
        bytes,
        sender: Some(wallet),
    })?;
    Ok(())
}

/// A wallet's oldest kept request of a peer once more, if both are there.
fn send_again_at(game: &mut Game, limits: Limits, wallet: u32, peer: &Name) -> Result<(), NoMemory>
    requires lawful { AreLawful limits (world_of game.old) }
    ensures happens { OnOk result (Happens limits (world_of game.old) (worlds.Again wallet peer.now) (world_of game.new)) }
{
    let place = wallet as usize;
    if place >= game.wallets.len() {
        return Ok(());
    }
    let Some(bytes) = send_again(game.alloc, &game.wallets[place], limits, peer)? else {
        return Ok(());
    };
    game.messages.push(Sent {
        bytes,
        sender: Some(wallet),
    })?;
    Ok(())
}

/// A message of nobody's.
fn forge(game: &mut Game, bytes: &[u8]) -> Result<(), NoMemory>
    ensures happens { (limits : Bounds) → OnOk result (Happens limits (world_of game.old) (worlds.Forge bytes.now) (world_of game.new)) }
{
    let bytes = Vec::from_slice(game.alloc, bytes)?;
    game.messages.push(Sent {
        bytes,
        sender: None,
    })?;
    Ok(())
}

/// A reply of nobody's.
fn tell(game: &mut Game, bytes: &[u8]) -> Result<(), NoMemory>
    ensures happens { (limits : Bounds) → OnOk result (Happens limits (world_of game.old) (worlds.Tell bytes.now) (world_of game.new)) }
{
    let bytes = Vec::from_slice(game.alloc, bytes)?;
    game.replies.push(bytes)?;
    Ok(())
}

/// An operator's entry at a house, if that is there.
fn enter_at(game: &mut Game, limits: Limits, house: u32, payload: &[u8]) -> Result<(), NoMemory>
    requires range { AreInRange limits }
    requires lawful { AreLawful limits (world_of game.old) }
    ensures happens { OnOk result (Happens limits (world_of game.old) (worlds.Enter house payload.now) (world_of game.new)) }
{
    let place = house as usize;
    if place >= game.houses.len() {
        return Ok(());
    }
    let alloc = game.alloc;
    let before = mem::replace(&mut game.houses[place], House::none(alloc));
    game.houses[place] = enter(alloc, before, limits, payload)?;
    Ok(())
}

/// A message that reaches a house, if both are there.
fn deliver_at(
    game: &mut Game,
    limits: Limits,
    message: u32,
    house: u32,
    reading: u64,
) -> Result<(), NoMemory>
    requires range { AreInRange limits }
    requires lawful { AreLawful limits (world_of game.old) }
    ensures happens { OnOk result (Happens limits (world_of game.old) (worlds.Deliver message house reading) (world_of game.new)) }
{
    let (from, to) = (message as usize, house as usize);
    if from >= game.messages.len() || to >= game.houses.len() {
        return Ok(());
    }
    let alloc = game.alloc;
    let before = mem::replace(&mut game.houses[to], House::none(alloc));
    let (after, reply) = deliver(alloc, before, limits, &game.messages[from].bytes, reading)?;
    game.houses[to] = after;
    game.replies.push(reply)?;
    Ok(())
}

/// A reply that reaches a wallet's kept request, if all are there.
fn return_to(
    game: &mut Game,
    limits: Limits,
    reply: u32,
    wallet: u32,
    request: u64,
    reading: u64,
) -> Result<(), NoMemory>
    requires lawful { AreLawful limits (world_of game.old) }
    ensures happens { OnOk result (Happens limits (world_of game.old) (worlds.Return reply wallet request reading) (world_of game.new)) }
{
    let (from, to) = (reply as usize, wallet as usize);
    if from >= game.replies.len() || to >= game.wallets.len() {
        return Ok(());
    }
    take_reply(
        game.alloc,
        &mut game.wallets[to],
        limits,
        &game.replies[from],
        request,
        reading,
    )?;
    Ok(())
}

/// A house's next run, if it is there. A wallet is always at the time of its history.
fn restart(game: &mut Game, limits: Limits, party: u32) -> Result<(), NoMemory>
    requires lawful { AreLawful limits (world_of game.old) }
    ensures happens { OnOk result (Happens limits (world_of game.old) (worlds.Restart party) (world_of game.new)) }
{
    let place = party as usize;
    if place >= game.houses.len() {
        return Ok(());
    }
    game.houses[place].restart();
    Ok(())
}
