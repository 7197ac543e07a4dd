//! Playing a schedule.

ghost use Rattle.std.specs.Prelude.{◌≡◌, ◌<◌, ◌^◌, map, IfOk};
ghost use Rattle.std.specs.List.{AllByRecursion};
ghost use Rattle.mc_records.specs.Entry.{Fits};
ghost use Rattle.ledger_model.specs.Histories.{time};
ghost use Rattle.world_model.specs.Worlds.{opens};
ghost use Rattle.mc_world.specs.Games.{IsRead, IsLawfulSetup, IsPlayed, first_world, world_of, event_of, Shows};

use crate::entering::secrets_are_bytes;
use crate::event::{Event, Setup};
use crate::game::{Game, Sent, step};
use crate::house::{House, opening_time};
use crate::world::World;
use ledger_model::History;
use mc_base::NoMemory;
use std::alloc::Global;
use std::vec::Vec;

/// Plays a schedule: carries its events out, one after the other, by the houses and wallets of a setup. Only want of
/// memory ends it early.
pub fn play(alloc: Global, setup: Setup, events: &[Event]) -> Result<World, NoMemory>
    requires setup { IsLawfulSetup setup }
    ensures played { IfOk result (λ left. IsPlayed setup.limits (first_world setup) (map event_of events.now) left) }
{
    let limits = setup.limits;
    histories_are_read(&setup.houses);
    histories_are_read(&setup.wallets);
    let mut game = begin(alloc, setup)?;
    for event in events {
        step(&mut game, limits, event)?;
    }
    end(game)
}

/// The game that a setup begins with.
fn begin(alloc: Global, setup: Setup) -> Result<Game, NoMemory>
    requires in_range { AllByRecursion (λ h. AllByRecursion Fits h) setup.houses.items }
    ensures begun { IfOk result (λ g. world_of g ≡ first_world setup) }
{
    let Setup {
        houses: histories,
        wallets,
        limits: _,
    } = setup;
    let mut houses = Vec::new(alloc);
    for history in histories {
        houses.push(opened(history))?;
    }
    Ok(Game {
        alloc,
        houses,
        wallets,
        messages: Vec::new(alloc),
        replies: Vec::new(alloc),
    })
}

/// A house as its history opens it.
fn opened(history: History) -> House
    requires { time history < 2 ^ 35 }
    ensures { result ≡ opens history }
{
    let time = opening_time(&history);
    House { history, time }
}

/// What a game leaves.
fn end(game: Game) -> Result<World, NoMemory>
    ensures shown { IfOk result (λ left. Shows left (world_of game)) }
{
    let Game {
        alloc,
        houses,
        wallets,
        messages: sent,
        replies,
    } = game;
    let mut histories = Vec::new(alloc);
    for house in houses {
        histories.push(house.into_history())?;
    }
    let mut messages = Vec::new(alloc);
    for message in sent {
        messages.push(message.into_bytes())?;
    }
    Ok(World {
        houses: histories,
        wallets,
        messages,
        replies,
    })
}

/// What some histories have was read: entries are in their ranges, and the secrets of stock are bytes.
fn histories_are_read(histories: &[History])
    ensures { AllByRecursion IsRead histories.now }
{
    for history in histories {
        history_is_read(history);
    }
}

/// The same of one history.
fn history_is_read(history: &History)
    ensures { IsRead history.now }
{
    for number in 0..history.len() {
        let Some(bytes) = history.payload(number) else {
            unreachable!()
        };
        secrets_are_bytes(bytes);
    }
}
