//! How the words of a command may begin.

ghost use Rattle.std.specs.Prelude.{◌≡◌, ◌<◌, ◌++◌, ◌∷◌, ◌↔◌, List, [], true, false, codes, length, map, string_bytes, IfOk, IfSome, IsNone, IsTrue};
ghost use Rattle.std.specs.List.{list_any};
ghost use Rattle.std.specs.Str.{bytes_eq};
ghost use Rattle.clap.specs.Walk.{Text};
ghost use Rattle.command_table.specs.Table.{form_of, rules};
ghost use Rattle.command_table.specs.Parameters.{rule_of};
ghost use Rattle.command_table.specs.Values.{HaveValues, rules_of};
ghost use Rattle.command_table.specs.Beginning.{AreTaken, EndInOption, LackValue, MayBegin, is_option};

use crate::may::fits;
use crate::parameter::{Parameter, Shape};
use crate::table::{CommandName, parts_of, read_beginning_of};
use std::alloc::{AllocError, Global};

/// Whether the words of this command may begin with these: role and name alike, where they are there,
/// and behind them words that values may still have, or an option whose value lacks. An Err is want of memory alone.
pub fn may_begin(alloc: Global, name: CommandName, words: &[String]) -> Result<bool, AllocError>
    ensures { IfOk result (λ r. IsTrue r ↔ MayBegin name (map string_bytes words.now)) }
{
    let form = name.form();
    let Some((role, command, behind)) = parts_of(words) else {
        return Ok(is_role(words, form.role));
    };
    if role != form.role || command != form.name {
        return Ok(false);
    }
    if are_taken(alloc, name, behind)? {
        return Ok(true);
    }
    lack_value(alloc, name, behind)
}

/// Whether the one word is the role, where there is one.
fn is_role(words: &[String], role: &str) -> bool
    requires { length words.now < 2 }
    ensures none { length words.now ≡ 0 → IsTrue result }
    ensures one { (word : Text) → map string_bytes words.now ≡ word ∷ []
        → (IsTrue result ↔ (word ≡ role.now)) }
{
    match words.split_first() {
        Some((word, _)) => word.as_str() == role,
        None => true,
    }
}

/// Whether the words behind the name may become those of the values, by the words that lack.
fn are_taken(alloc: Global, name: CommandName, words: &[String]) -> Result<bool, AllocError>
    ensures { IfOk result (λ r. IsTrue r ↔ AreTaken (rules (form_of name))
        (HaveValues (form_of name).parameters) (map string_bytes words.now)) }
{
    let Some(found) = read_beginning_of(alloc, name, words)? else {
        return Ok(false);
    };
    Ok(fits(name, &found))
}

/// Whether they may where the last one is an option, by its value and the words that lack.
fn lack_value(alloc: Global, name: CommandName, words: &[String]) -> Result<bool, AllocError>
    ensures { IfOk result (λ r. IsTrue r ↔ LackValue (rules (form_of name))
        (HaveValues (form_of name).parameters) (map string_bytes words.now)) }
{
    let Some((front, option)) = last_option(name.form().parameters, words) else {
        return Ok(false);
    };
    let Some(found) = read_beginning_of(alloc, name, front)? else {
        return Ok(false);
    };
    Ok(fits(name, &found) & found.value_of(option).is_none())
}

/// The words before the last one and its name, where that is an option with a value.
fn last_option<'a>(
    parameters: &[Parameter],
    words: &'a [String],
) -> Option<(&'a [String], &'static str)>
    ensures some { IfSome result (λ p. EndInOption (rules_of parameters.now)
        (map string_bytes words.entry.now) (map string_bytes p.0.now) p.1.now) }
    ensures none { IsNone result → (front : List Text) (name : Text)
        → EndInOption (rules_of parameters.now) (map string_bytes words.entry.now) front name → ⊥ }
{
    let (last, front) = words.split_last()?;
    if has_hyphens(front) {
        return None;
    }
    let name = behind_hyphens(last.as_bytes())?;
    let option = option_named(parameters, name)?;
    Some((front, option))
}

/// What is behind `--` in a word.
fn behind_hyphens(word: &[u8]) -> Option<&[u8]>
    ensures some { IfSome result (λ name. word.now ≡ codes "--" ++ name.now) }
    ensures none { IsNone result → (name : Text) → word.now ≡ codes "--" ++ name → ⊥ }
{
    match word {
        [b'-', b'-', name @ ..] => Some(name),
        _ => None,
    }
}

/// Whether one of the words is `--`.
fn has_hyphens(words: &[String]) -> bool
    ensures { result ≡ list_any (λ word. bytes_eq (string_bytes word) (codes "--")) words.now }
{
    words.iter().any(|word| word.as_str() == "--")
}

/// The name of the option with a value that has this name.
fn option_named(parameters: &[Parameter], name: &[u8]) -> Option<&'static str>
    ensures some { IfSome result (λ option. (option.now ≡ name.now)
        × (list_any (is_option name.now) (rules_of parameters.now) ≡ true)) }
    ensures none { IsNone result → list_any (is_option name.now) (rules_of parameters.now) ≡ false }
{
    for parameter in parameters {
        if let Some(option) = name_of(*parameter, name) {
            return Some(option);
        }
    }
    None
}

/// The name of the parameter, where it is an option with a value that has this name.
fn name_of(parameter: Parameter, name: &[u8]) -> Option<&'static str>
    ensures some { IfSome result (λ option. (option.now ≡ name.now)
        × (is_option name.now (rule_of parameter) ≡ true)) }
    ensures none { IsNone result → is_option name.now (rule_of parameter) ≡ false }
{
    let option = parameter.name();
    match parameter.shape() {
        Shape::Setting(_) if option.as_bytes() == name => Some(option),
        _ => None,
    }
}
