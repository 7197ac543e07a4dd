//! What is kept of the sales of each identity, in their order.

ghost use Rattle.std.specs.Prelude.{◌≡◌, ◌++◌, ◌∷◌, [], List, Some, IfOk, OnOk};
ghost use Rattle.std.specs.List.{list_any};
ghost use Rattle.name_places.specs.NamePlaces.{NamePlacesView, place_of};
ghost use Rattle.relayed_books.specs.Tree.{Sold, clash};
ghost use Rattle.tree_search.specs.Marks.{MarksShow, AreApart, IsSale, barred_by, mark_with};

use audit_model::Part;
use mc_base::NoMemory;
use std::alloc::Global;
use std::collections::HashMap;

/// What is kept of the sales of one identity of a vendor.
#[derive(Clone, Copy, Drop)]
pub(crate) struct Mark {
    /// The value of the first.
    pub(crate) value: u64,
    /// Whether another had another value.
    pub(crate) mixed: bool,
    /// Whether one was made under a licence.
    pub(crate) licensed: bool,
}

/// The sales so far, by the place of the vendor and the identity.
#[derive(Drop)]
pub(crate) struct Marks {
    pub(crate) marks: HashMap<(usize, u64), Mark>,
}

impl Marks {
    /// No sales. It takes no memory.
    pub(crate) fn new(alloc: Global) -> Marks
        ensures { (places : NamePlacesView) → MarksShow result places [] }
    {
        Marks {
            marks: HashMap::new(alloc),
        }
    }

    /// Whether the next sale, of a vendor of this place, can't stand with one of those before it; and keeps the sale. After
    /// an `Err` nothing is said of what is kept.
    pub(crate) fn see(&mut self, place: usize, part: Part, stock: bool) -> Result<bool, NoMemory>
        ensures barred { (places : NamePlacesView) (earlier : List Sold) (s : Sold) → MarksShow self.old places earlier
            → place_of places s.vendor ≡ Some place → IsSale part stock s
            → IfOk result (λ b. b ≡ list_any (clash s) earlier) }
        ensures shows { (places : NamePlacesView) (earlier : List Sold) (s : Sold) → AreApart places
            → MarksShow self.old places earlier → place_of places s.vendor ≡ Some place → IsSale part stock s
            → OnOk result (MarksShow self.new places (earlier ++ s ∷ [])) }
    {
        let id = part.id.number();
        let (barred, mark) = next(self.marks.get(&(place, id)).copied(), part.value, stock);
        self.marks.insert((place, id), mark)?;
        Ok(barred)
    }
}

/// Whether the sales of an identity bar the next, and what is kept with it.
fn next(before: Option<Mark>, value: u64, stock: bool) -> (bool, Mark)
    ensures barred { result.0 ≡ barred_by before value stock }
    ensures mark { result.1 ≡ mark_with before value stock }
{
    match before {
        None => (
            false,
            Mark {
                value,
                mixed: false,
                licensed: !stock,
            },
        ),
        Some(m) => (
            m.value != value || m.mixed || m.licensed && !stock,
            Mark {
                value: m.value,
                mixed: m.mixed || m.value != value,
                licensed: m.licensed || !stock,
            },
        ),
    }
}
