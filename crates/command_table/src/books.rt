ghost use Rattle.std.specs.Prelude.{◌≡◌, ◌<◌, ◌&&◌, List, ℕ, length, map, nat_lt, IfSome, IsNone};
ghost use Rattle.std.specs.List.{AllByRecursion, list_all};
ghost use Rattle.command_table.specs.Parameters.{name_of};
ghost use Rattle.command_table.specs.Ranges.{IsPathOrAddress, is_path_or_address};
ghost use Rattle.command_table.specs.Values.{IsFound};
ghost use Rattle.command_table.specs.declared.parameter.Parameter.TheVariants as parameters;
ghost use Rattle.command_table.specs.declared.parameter.Shape.TheVariants.{Places};

use crate::value::are_places;
use command_words::Found;
use std::marker::Model;

/// The books that several words name, one at least. Contracts see them as the texts of the words, in their order.
#[derive(Drop)]
pub struct Books<'a> {
    found: Found<'a>,
}

impl<'a> Model for Books<'a> {
    ghost use Rattle.std.specs.Prelude.{ℕ, List, [], unwrap_or, codes};
    ghost use Rattle.command_words.specs.Arguments.{values_of};
    ghost use Rattle.command_table.specs.Values.{IsFound};
    ghost use Rattle.command_table.specs.declared.parameter.Shape.TheVariants.{Places};

    ghost Value = { List (List ℕ) };

    ghost view = { λ b. unwrap_or (values_of b.found (codes "BOOK")) [] };

    ghost invariant = { λ b. IsFound b.found (codes "BOOK") Places
        (unwrap_or (values_of b.found (codes "BOOK")) []) };
}

impl<'a> Books<'a> {
    /// The books. Each is the bytes of its word, of which there are 1 to 255.
    pub fn list(&self) -> &[&'a str]
        ensures value { map (λ book. book.now) result.now ≡ self.now }
        ensures some { 0 < length self.now }
        ensures range { AllByRecursion IsPathOrAddress self.now }
    {
        self.found.values_of("BOOK").unwrap_or_default()
    }
}

/// The books that the words BOOK name; None exactly where they name none.
pub fn books_in<'a>(found: Found<'a>) -> Option<Books<'a>>
    ensures some { IfSome result (IsFound found.entry (name_of parameters.Books) Places) }
    ensures none { IsNone result → (books : List (List ℕ))
        → IsFound found.entry (name_of parameters.Books) Places books → ⊥ }
{
    let books = found.values_of("BOOK")?;
    if !are_books(books) {
        return None;
    }
    Some(Books { found })
}

/// Whether the words name books, one at least.
fn are_books(words: &[&str]) -> bool
    ensures { result ≡ (nat_lt 0 (length words.now)
        && list_all (λ word. is_path_or_address word.now) words.now) }
{
    0 < words.len() && are_places(words)
}
