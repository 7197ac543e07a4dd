//! Whether the parameters of a command have words that spell values, or none yet.

ghost use Rattle.std.specs.Prelude.{◌≡◌, ◌≤◌, true, length, decimal, Contains, IfSome, IsNone, IsTrue, ◌↔◌};
ghost use Rattle.std.specs.List.{AllByRecursion};
ghost use Rattle.hex.specs.Hex.{encode_lower};
ghost use Rattle.scrip_form.specs.Texts.{IsName, IsTarget};
ghost use Rattle.scrip_form.specs.Scrip.{IsCert};
ghost use Rattle.command_words.specs.Arguments.{value_of, values_of};
ghost use Rattle.mc_records.specs.declared.ranges.TheConstants.{MOST_CONTENTS};
ghost use Rattle.command_table.specs.Ranges.{IsConnect, IsListen, IsPathOrAddress, IsSecretList, IsSocket, IsWithin, joined};
ghost use Rattle.command_table.specs.Beginning.{MayBecome};
ghost use Rattle.command_table.specs.Parameters.{is_range, name_of, shape_of};
ghost use Rattle.command_table.specs.Table.{form_of, rules};
ghost use Rattle.command_table.specs.Values.{EachMayBe, HaveValues, IsOf, MayBe, MaySpell, spelled};
ghost use Rattle.command_table.specs.declared.parameter.Shape.TheVariants.{One};

use crate::parameter::{Parameter, Shape, Sort};
use crate::table::CommandName;
use crate::value::{
    MOST_NUMBER, are_places, spelled_connect, spelled_contents, spelled_listen, spelled_name,
    spelled_option, spelled_place, spelled_secret, spelled_secrets, spelled_socket, spelled_target,
};
use command_words::Found;

/// Whether what was found in words of a command may still become values of its parameters, where words lack.
pub(crate) fn fits(name: CommandName, found: &Found<'_>) -> bool
    ensures { IsTrue result ↔ MayBecome (rules (form_of name)) (HaveValues (form_of name).parameters)
        found.now }
{
    each_may_be(found, name.form().parameters)
}

/// Whether each of these parameters has words that spell a value, or none.
fn each_may_be(found: &Found<'_>, parameters: &[Parameter]) -> bool
    ensures { IsTrue result ↔ EachMayBe found.now parameters.now }
{
    first_unfit(found, parameters).is_none()
}

/// The first of these parameters that has words which spell no value of it.
pub(crate) fn first_unfit(found: &Found<'_>, parameters: &[Parameter]) -> Option<Parameter>
    ensures none { IsNone result ↔ EachMayBe found.now parameters.now }
    ensures listed { IfSome result (λ p. Contains parameters.now p) }
    ensures some { IfSome result (λ p. MayBe found.now (name_of p) (shape_of p) → ⊥) }
{
    for parameter in parameters {
        if !may_be(found, *parameter) {
            return Some(*parameter);
        }
    }
    None
}

/// Whether this one has words that spell a value, or none.
fn may_be(found: &Found<'_>, parameter: Parameter) -> bool
    ensures { IsTrue result ↔ MayBe found.now (name_of parameter) (shape_of parameter) }
{
    let name = parameter.name();
    match parameter.shape() {
        Shape::One(sort) => may_spell(found, name, sort),
        Shape::Setting(sort) => may_spell(found, name, sort),
        Shape::Places => may_places(found, name),
        Shape::Flag => true,
    }
}

/// Whether the word spells a value of this sort, or is not there.
fn may_spell(found: &Found<'_>, name: &str, sort: Sort) -> bool
    requires { is_range (One sort) ≡ true }
    ensures { IsTrue result
        ↔ MaySpell (value_of found.now name.now) (IsOf sort) (spelled sort) }
{
    match sort {
        Sort::Place => may_place(found, name),
        Sort::Listen => may_listen(found, name),
        Sort::Connect => may_connect(found, name),
        Sort::Socket => may_socket(found, name),
        Sort::Name => may_name(found, name),
        Sort::Target => may_target(found, name),
        Sort::Contents => may_contents(found, name),
        Sort::Secret => may_secret(found, name),
        Sort::Secrets => may_secrets(found, name),
        Sort::Number(least, most) => may_number(found, name, least, most),
    }
}

/// Whether the word names a book, or is not there.
fn may_place(found: &Found<'_>, name: &str) -> bool
    ensures { IsTrue result ↔ MaySpell (value_of found.now name.now) IsPathOrAddress (λ p. p) }
{
    found.value_of(name).is_none() || spelled_place(found, name).is_some()
}

/// Whether the word names a place to listen at, likewise.
fn may_listen(found: &Found<'_>, name: &str) -> bool
    ensures { IsTrue result ↔ MaySpell (value_of found.now name.now) IsListen (λ p. p) }
{
    found.value_of(name).is_none() || spelled_listen(found, name).is_some()
}

/// Whether the word names a place to connect to, likewise.
fn may_connect(found: &Found<'_>, name: &str) -> bool
    ensures { IsTrue result ↔ MaySpell (value_of found.now name.now) IsConnect (λ p. p) }
{
    found.value_of(name).is_none() || spelled_connect(found, name).is_some()
}

/// Whether the word names a place of a Unix socket, likewise.
fn may_socket(found: &Found<'_>, name: &str) -> bool
    ensures { IsTrue result ↔ MaySpell (value_of found.now name.now) IsSocket (λ p. p) }
{
    spelled_socket(found, name).is_some()
}

/// Whether each of several words names a book, where there are words.
fn may_places(found: &Found<'_>, name: &str) -> bool
    ensures { IsTrue result
        ↔ IfSome (values_of found.now name.now) (AllByRecursion IsPathOrAddress) }
{
    match found.values_of(name) {
        Some(words) => are_places(words),
        None => true,
    }
}

/// Whether the word is a name, likewise.
fn may_name(found: &Found<'_>, name: &str) -> bool
    ensures { IsTrue result ↔ MaySpell (value_of found.now name.now) IsName (λ n. n) }
{
    found.value_of(name).is_none() || spelled_name(found, name).is_some()
}

/// Whether the word is a target, likewise.
fn may_target(found: &Found<'_>, name: &str) -> bool
    ensures { IsTrue result ↔ MaySpell (value_of found.now name.now) IsTarget (λ t. t) }
{
    found.value_of(name).is_none() || spelled_target(found, name).is_some()
}

/// Whether the word spells a secret, likewise.
fn may_secret(found: &Found<'_>, name: &str) -> bool
    ensures { IsTrue result ↔ MaySpell (value_of found.now name.now) IsCert encode_lower }
{
    found.value_of(name).is_none() || spelled_secret(found, name).is_some()
}

/// Whether the word spells secrets, likewise.
fn may_secrets(found: &Found<'_>, name: &str) -> bool
    ensures { IsTrue result ↔ MaySpell (value_of found.now name.now) IsSecretList joined }
{
    found.value_of(name).is_none() || spelled_secrets(found, name).is_some()
}

/// Whether the word is contents that may be sold, likewise.
fn may_contents(found: &Found<'_>, name: &str) -> bool
    ensures { IsTrue result
        ↔ MaySpell (value_of found.now name.now) (λ c. length c ≤ MOST_CONTENTS) (λ c. c) }
{
    found.value_of(name).is_none() || spelled_contents(found, name).is_some()
}

/// Whether the word spells a number from `least` to `most`, likewise.
fn may_number(found: &Found<'_>, name: &str, least: u64, most: u64) -> bool
    requires { most ≤ MOST_NUMBER }
    ensures { IsTrue result
        ↔ MaySpell (value_of found.now name.now) (IsWithin least most) decimal }
{
    spelled_option(found, name, least, most).is_some()
}
