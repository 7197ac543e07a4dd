//! The values of the parameters of a command, read from what `clap` finds in its words.

ghost use Rattle.std.specs.Prelude.{◌≤◌, ℕ, List, Option, IfSome, IsNone};
ghost use Rattle.command_table.specs.Parameters.{name_of};
ghost use Rattle.command_table.specs.Values.{IsFound};
ghost use Rattle.command_table.specs.declared.parameter.Shape.TheVariants.{One, Setting, Flag};
ghost use Rattle.command_table.specs.declared.parameter.Sort.TheVariants as sorts;

use crate::contents::Contents;
use crate::parameter::Parameter;
use crate::place::Place;
use crate::value::{
    MOST_NUMBER, spelled_connect, spelled_contents, spelled_listen, spelled_name, spelled_number,
    spelled_option, spelled_place, spelled_secret, spelled_secrets, spelled_socket, spelled_target,
};
use crate::within::Within;
use command_words::Found;
use scrip_form::{Name, Secrets, Target};

/// The book that a word names; None exactly where there is none.
pub fn place_in<'a>(found: &Found<'a>, parameter: Parameter) -> Option<Place<'a>>
    ensures some { IfSome result (IsFound found.now (name_of parameter) (One sorts.Place)) }
    ensures none { IsNone result → (value : List ℕ)
        → IsFound found.now (name_of parameter) (One sorts.Place) value → ⊥ }
{
    Some(Place::of(spelled_place(found, parameter.name())?))
}

/// The place to listen at that a word names, likewise.
pub fn listen_in<'a>(found: &Found<'a>, parameter: Parameter) -> Option<Place<'a>>
    ensures some { IfSome result (IsFound found.now (name_of parameter) (One sorts.Listen)) }
    ensures none { IsNone result → (value : List ℕ)
        → IsFound found.now (name_of parameter) (One sorts.Listen) value → ⊥ }
{
    Some(Place::of(spelled_listen(found, parameter.name())?))
}

/// The place to connect to that a word names, likewise.
pub fn connect_in<'a>(found: &Found<'a>, parameter: Parameter) -> Option<Place<'a>>
    ensures some { IfSome result (IsFound found.now (name_of parameter) (One sorts.Connect)) }
    ensures none { IsNone result → (value : List ℕ)
        → IsFound found.now (name_of parameter) (One sorts.Connect) value → ⊥ }
{
    Some(Place::of(spelled_connect(found, parameter.name())?))
}

/// The name that a word is, likewise.
pub fn name_in(found: &Found<'_>, parameter: Parameter) -> Option<Name>
    ensures some { IfSome result (IsFound found.now (name_of parameter) (One sorts.Name)) }
    ensures none { IsNone result → (value : List ℕ)
        → IsFound found.now (name_of parameter) (One sorts.Name) value → ⊥ }
{
    spelled_name(found, parameter.name())
}

/// The target that a word is, likewise.
pub fn target_in(found: &Found<'_>, parameter: Parameter) -> Option<Target>
    ensures some { IfSome result (IsFound found.now (name_of parameter) (One sorts.Target)) }
    ensures none { IsNone result → (value : List ℕ)
        → IsFound found.now (name_of parameter) (One sorts.Target) value → ⊥ }
{
    spelled_target(found, parameter.name())
}

/// The contents that a word is, likewise.
pub fn contents_in<'a>(found: &Found<'a>, parameter: Parameter) -> Option<Contents<'a>>
    ensures some { IfSome result (IsFound found.now (name_of parameter) (One sorts.Contents)) }
    ensures none { IsNone result → (value : List ℕ)
        → IsFound found.now (name_of parameter) (One sorts.Contents) value → ⊥ }
{
    Some(Contents::of(spelled_contents(found, parameter.name())?))
}

/// The secret that a word spells, likewise.
pub fn secret_in(found: &Found<'_>, parameter: Parameter) -> Option<[u8; 16]>
    ensures some { IfSome result (IsFound found.now (name_of parameter) (One sorts.Secret)) }
    ensures none { IsNone result → (value : List ℕ)
        → IsFound found.now (name_of parameter) (One sorts.Secret) value → ⊥ }
{
    spelled_secret(found, parameter.name())
}

/// The secrets that a word spells, likewise.
pub fn secrets_in(found: &Found<'_>, parameter: Parameter) -> Option<Secrets>
    ensures some { IfSome result (IsFound found.now (name_of parameter) (One sorts.Secrets)) }
    ensures none { IsNone result → (value : List (List ℕ))
        → IsFound found.now (name_of parameter) (One sorts.Secrets) value → ⊥ }
{
    spelled_secrets(found, parameter.name())
}

/// The number that a word spells, likewise.
pub fn number_in<const LEAST: u64, const MOST: u64>(
    found: &Found<'_>,
    parameter: Parameter,
) -> Option<Within<LEAST, MOST>>
    requires { MOST ≤ MOST_NUMBER }
    ensures some { IfSome result
        (IsFound found.now (name_of parameter) (One (sorts.Number LEAST MOST))) }
    ensures none { IsNone result → (value : ℕ)
        → IsFound found.now (name_of parameter) (One (sorts.Number LEAST MOST)) value → ⊥ }
{
    Some(Within::of(spelled_number(found, parameter.name(), LEAST, MOST)?))
}

/// The number that the value of an option spells, where the option is there; None exactly where it spells none.
pub fn setting_in<const LEAST: u64, const MOST: u64>(
    found: &Found<'_>,
    parameter: Parameter,
) -> Option<Option<Within<LEAST, MOST>>>
    requires { MOST ≤ MOST_NUMBER }
    ensures some { IfSome result
        (IsFound found.now (name_of parameter) (Setting (sorts.Number LEAST MOST))) }
    ensures none { IsNone result → (value : Option ℕ)
        → IsFound found.now (name_of parameter) (Setting (sorts.Number LEAST MOST)) value → ⊥ }
{
    match spelled_option(found, parameter.name(), LEAST, MOST)? {
        Some(number) => Some(Some(Within::of(number))),
        None => Some(None),
    }
}

/// The place of a Unix socket that the value of an option is, where the option is there; None exactly where it is none.
pub fn socket_in<'a>(found: &Found<'a>, parameter: Parameter) -> Option<Option<Place<'a>>>
    ensures some { IfSome result (IsFound found.now (name_of parameter) (Setting sorts.Socket)) }
    ensures none { IsNone result → (value : Option (List ℕ))
        → IsFound found.now (name_of parameter) (Setting sorts.Socket) value → ⊥ }
{
    match spelled_socket(found, parameter.name())? {
        Some(path) => Some(Some(Place::of(path))),
        None => Some(None),
    }
}

/// Whether a flag is there.
pub fn flag_in(found: &Found<'_>, parameter: Parameter) -> bool
    ensures { IsFound found.now (name_of parameter) Flag result }
{
    found.has_flag(parameter.name())
}
