// Films by number, in a catalogue.
ghost use Rattle.std.specs.Prelude.{◌≡◌};
ghost use Rattle.films.specs.Lookup.{lookup_in};

use crate::file::Entry;

// Where a film's sizes stand in the file: the offset of the first, and how many.
#[derive(Clone, Copy, PartialEq, Eq, Debug, Default)]
pub struct Place {
    pub at: usize,
    pub rounds: usize,
}

// Where the sizes of a film stand, for any list of entries and any number.
#[tactic(auto, unfolding(crate::specs::Lookup::lookup_in))]
pub fn lookup(films: &[Entry], film: u64) -> Option<Place>
    ensures { result ≡ lookup_in films.now film }
{
    let entry = films.iter().find(|entry| u64::from(entry.number) == film)?;
    Some(Place {
        at: entry.at as usize,
        rounds: usize::from(entry.rounds),
    })
}
