ghost use Rattle.std.specs.Prelude.{◌≡◌};

use std::marker::Model;

/// A vector that contracts see as the list of its elements, so that a value which holds one is
/// compared by them alone, and not by capacity or place in memory.
#[derive(Debug, Drop)]
pub struct List<X> {
    items: Vec<X>,
}

impl<X> Model for List<X> {
    ghost use Rattle.std.specs.Prelude.{List as Items};

    ghost Value = { Items X };

    ghost view = { λ l. l.items.items };
}

impl<X> List<X> {
    /// The list of the vector's elements.
    pub fn of(v: Vec<X>) -> List<X>
        ensures { result ≡ v.items }
    {
        List { items: v }
    }

    /// The elements.
    pub fn slice(&self) -> &[X]
        ensures { result.now ≡ self.now }
    {
        &self.items
    }

    /// The vector of the elements.
    pub fn into_vec(self) -> Vec<X>
        ensures { result.items ≡ self }
    {
        let List { items } = self;
        items
    }
}
