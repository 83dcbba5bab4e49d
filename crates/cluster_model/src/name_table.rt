ghost use Rattle.std.specs.Prelude.{◌≡◌, ◌++◌, ◌∷◌, [], List, ℕ, OnErr, OnOk};
ghost use Rattle.cluster_model.specs.Inner.TableRows.{or_place, place_found, shown_rows, value_at};
ghost use Rattle.cluster_model.specs.Inner.Tables.{lookup};

use cluster_types::NoMemory;
use crm_lex::Name;
use std::alloc::Global;
use std::collections::BTreeMap;
use std::marker::Model;

/// What names stand for, in the order in which they are added; the first row of a name counts. The names are borrowed.
/// However they are chosen, a name is found among n in the time of log n comparisons.
#[derive(Drop)]
pub struct NameTable<'n, V> {
    rows: Vec<(&'n [u8], V)>,
    /// Where the first row of each name is.
    places: BTreeMap<&'n [u8], usize>,
}

impl<'n, V> Model for NameTable<'n, V> {
    ghost use Rattle.std.specs.Prelude.{List, ℕ};
    ghost use Rattle.cluster_model.specs.Inner.TableRows.{shown_rows, HasFirstPlaces};

    ghost Value = { List (List ℕ × V) };

    ghost view = { λ table. shown_rows table.rows.items };

    ghost invariant = { λ table. HasFirstPlaces table.places (shown_rows table.rows.items) };
}

/// What stands at a place of the rows.
#[tactic(auto, using(crate::proofs::TableRows::shown_value))]
fn value_at<V: Copy>(rows: &[(&[u8], V)], place: usize) -> Option<V>
    ensures { result ≡ value_at (shown_rows rows.now) place }
{
    let row = rows.get(place)?;
    Some(row.1)
}

/// The place of a name.
fn place_of(places: &BTreeMap<&[u8], usize>, name: &[u8]) -> Option<usize>
    ensures { result ≡ place_found places.now name.now }
{
    places.get(name).copied()
}

/// Keeps the place of a name that has none yet.
fn keep_place<'n>(
    places: &mut BTreeMap<&'n [u8], usize>,
    name: &'n [u8],
    place: usize,
) -> Result<(), NoMemory>
    ensures ok { OnOk result ((each : List ℕ) → place_found places.new each ≡ or_place (place_found places.old each) each name.now place) }
    ensures err { OnErr result ((each : List ℕ) → place_found places.new each ≡ place_found places.old each) }
{
    if place_of(places, name).is_none() {
        places.insert(name, place)?;
    }
    Ok(())
}

impl<'n, V: Copy> NameTable<'n, V> {
    /// No names. It takes no memory.
    pub fn new(alloc: Global) -> Self
        ensures { result ≡ [] }
    {
        NameTable {
            rows: Vec::new(alloc),
            places: BTreeMap::new(alloc),
        }
    }

    /// What the name stands for, where it was added.
    #[tactic(auto, using(crate::proofs::TableRows::first_value))]
    pub fn get(&self, name: &Name) -> Option<V>
        ensures { result ≡ lookup self.now name.now }
    {
        let place = place_of(&self.places, name.bytes())?;
        value_at(self.rows.as_slice(), place)
    }

    /// Adds what a name stands for. A name that was added before keeps what it stands for. When memory runs out the table stays as it was.
    pub fn add(&mut self, name: &'n Name, value: V) -> Result<(), NoMemory>
        ensures ok { OnOk result (self.new ≡ self.old ++ (name.now, value) ∷ []) }
        ensures err { OnErr result (self.new ≡ self.old) }
    {
        let name = name.bytes();
        self.rows.reserve(1)?;
        keep_place(&mut self.places, name, self.rows.len())?;
        self.rows.push_reserved((name, value));
        Ok(())
    }
}
