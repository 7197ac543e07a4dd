//! Sites that are served, and heads that are played.

ghost use Rattle.std.specs.Prelude.{◌≡◌, option_map};
ghost use Rattle.command_table.specs.Ranges.{IsWithin};
ghost use Rattle.command_table.specs.Table.{Gives};
ghost use Rattle.command_table.specs.declared.table.CommandName.TheVariants.{VendorPlay, VendorServe};
ghost use Rattle.site_words.specs.Words.{playing_values, server_values};

use command_table::{
    Heads, Links, MOST_HEADS, MOST_LINKS, Parameter, Place, listen_in, number_in, place_in,
    socket_in,
};
use command_words::Found;

/// What a site is served by.
#[derive(Drop)]
pub struct Server<'a> {
    /// The book of the site.
    pub book: Place<'a>,
    /// Where the links come.
    pub listen: Place<'a>,
    /// How many links are taken at most.
    pub links: Links,
    /// Where the site's operator gives commands meanwhile, if he may.
    pub door: Option<Place<'a>>,
}

impl<'a> Server<'a> {
    /// `vendor serve BOOK LISTEN LINKS [--door PATH]`, and `broker serve` likewise.
    #[tactic(auto, unfolding(command_table::specs::Table::form_of, crate::specs::Words::server_values))]
    pub fn read(found: &Found<'a>) -> Option<Server<'a>>
        ensures { Gives VendorServe server_values found.now result }
    {
        let book = place_in(found, Parameter::Book)?;
        let listen = listen_in(found, Parameter::Listen)?;
        let links = number_in(found, Parameter::Links)?;
        let door = socket_in(found, Parameter::Door)?;
        Some(Server {
            book,
            listen,
            links,
            door,
        })
    }

    /// The book of the site.
    pub fn book(&self) -> &'a [u8]
        ensures { result.now ≡ self.now.book }
    {
        self.book.bytes()
    }

    /// Where the links come.
    pub fn listen(&self) -> &'a [u8]
        ensures { result.now ≡ self.now.listen }
    {
        self.listen.bytes()
    }

    /// How many links are taken at most.
    pub fn links(&self) -> u32
        ensures value { result ≡ self.now.links }
        ensures range { IsWithin 1 MOST_LINKS self.now.links }
    {
        self.links.get() as u32
    }

    /// Where the site's operator gives commands meanwhile, if he may: the path of a Unix socket.
    pub fn door(&self) -> Option<&'a [u8]>
        ensures { option_map (λ p. p.now) result ≡ self.now.door }
    {
        match &self.door {
            Some(place) => Some(place.bytes()),
            None => None,
        }
    }
}

/// How many heads are played.
#[derive(Drop)]
pub struct Playing {
    /// How many heads.
    pub count: Heads,
}

impl Playing {
    /// `vendor play COUNT`.
    #[tactic(auto, unfolding(command_table::specs::Table::form_of, crate::specs::Words::playing_values))]
    pub fn read(found: &Found<'_>) -> Option<Playing>
        ensures { Gives VendorPlay playing_values found.now result }
    {
        let count = number_in(found, Parameter::Heads)?;
        Some(Playing { count })
    }

    /// How many heads.
    pub fn count(&self) -> u32
        ensures value { result ≡ self.now.count }
        ensures range { IsWithin 1 MOST_HEADS self.now.count }
    {
        self.count.get() as u32
    }
}
