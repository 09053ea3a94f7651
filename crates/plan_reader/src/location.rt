//! Where a plan is broken.

ghost use Rattle.std.specs.Prelude.{◌≡◌, option_map};
ghost use Rattle.plan_reader.specs.Locations.{is_up_to, location, location_order, rank};

use med_base::Part;
use text_reading::Ordered;

/// A part of a plan, and the index of an item of that part.
#[derive(Clone, Copy, Debug, PartialEq, Eq)]
pub struct Location {
    pub part: Part,
    pub item: usize,
}

/// By part, and then by item.
impl Ordered for Location {
    ghost up_to = { is_up_to };

    ghost order = { location_order };

    fn is_up_to(self, other: Location) -> bool {
        let (one, two) = (rank(self.part), rank(other.part));
        one < two || (one == two && self.item <= other.item)
    }
}

fn rank(part: Part) -> u8
    ensures { result ≡ rank part }
{
    match part {
        Part::Plan => 0,
        Part::Fragment => 1,
        Part::Join => 2,
        Part::Group => 3,
        Part::Rule => 4,
        Part::Atom => 5,
    }
}

/// The location of an item of the part.
pub fn located(part: Part, item: Option<usize>) -> Option<Location>
    ensures { result ≡ option_map (location part) item }
{
    match item {
        Some(item) => Some(Location { part, item }),
        None => None,
    }
}
