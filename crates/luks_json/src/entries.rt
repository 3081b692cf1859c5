// Maps of objects by their numbers.

ghost use Rattle.std.specs.Prelude.{◌≡◌, ℕ, List, Result, IfOk, OnOk, decimal};
ghost use Rattle.serde_json.specs.Data.{Members, put as with_member, object as object_data};
ghost use Rattle.serde_json.specs.View.{view};
ghost use Rattle.json_members.specs.declared.faults.JsonFault.{JsonFault};
ghost use Rattle.json_members.specs.Fields.{Gives};
ghost use Rattle.json_members.specs.Entries.{viewed, numbered_in, objects_in, entry_at};
ghost use Rattle.json_members.specs.Entries.{objects_members};

use json_members::{
    JsonFaultKind, Listed, Object, ReadError, decimal_number, decimal_text, fault_at, path_of,
};
use serde_json::Value;
use std::alloc::{AllocError, Global};
use std::collections::BTreeMap;

/// What the objects of a map by numbers are read as, and how they are written.
pub trait EntryText: Drop {
    /// What reading depends on beside the members.
    type Terms;

    /// What the members of an object at a path are, or the first fault in them.
    ghost of: { Self.Terms → List ℕ → Members → Result Self JsonFault };

    /// The members that are written.
    ghost members: { Self → Members };

    /// Reads the members of an object at a path.
    fn read(
        alloc: Global,
        terms: &Self::Terms,
        path: &str,
        object: Object,
    ) -> Result<Self, ReadError>
        ensures { Gives (λ x. x) result (of terms.now path.now object) };

    /// The object to write.
    fn write(&self, alloc: Global) -> Result<Object, AllocError>
        ensures { IfOk result (λ o. o ≡ members self.now) };
}

/// The members by their numbers: `Number` at the first key, in byte order, that is the decimal
/// text of no number within 64 bits.
#[tactic(auto, unfolding(json_members::specs::Entries::numbered_from))]
fn by_number(alloc: Global, path: &str, object: Object) -> Result<BTreeMap<u64, Value>, ReadError>
    ensures { Gives (λ m. viewed m.entries) result (numbered_in path.now object) }
{
    let mut found = BTreeMap::new(alloc);
    for (key, value) in object.into_map() {
        let Some(number) = decimal_number(key.as_str()) else {
            return Err(fault_at(alloc, JsonFaultKind::Number, path, key.as_str()));
        };
        drop(found.insert(number, value)?);
    }
    Ok(found)
}

#[tactic(auto, unfolding(json_members::specs::Entries::entry_at))]
fn read_value<E: EntryText>(
    alloc: Global,
    terms: &E::Terms,
    path: &str,
    number: u64,
    value: Value,
) -> Result<E, ReadError>
    ensures { Gives (λ x. x) result (entry_at (E.of terms.now) path.now (number, view value)) }
{
    let text = decimal_text(alloc, number)?;
    let Value::Object(map) = value else {
        return Err(fault_at(alloc, JsonFaultKind::Kind, path, text.as_str()));
    };
    let place = path_of(alloc, path, text.as_str())?;
    E::read(alloc, terms, place.as_str(), Object::new(map))
}

/// The objects of a map by numbers, by rising number. Bad keys come first: `Number` at the first
/// of them in byte order. Then comes the first fault of the objects in turn, `Kind` where one is
/// no object.
#[tactic(auto, unfolding(json_members::specs::Entries::objects_in))]
pub(crate) fn read_entries<E: EntryText>(
    alloc: Global,
    terms: &E::Terms,
    path: &str,
    object: Object,
) -> Result<Listed<(u64, E)>, ReadError>
    ensures { Gives (λ l. l) result (objects_in (E.of terms.now) path.now object) }
{
    let mut list = Vec::new(alloc);
    for (number, value) in by_number(alloc, path, object)? {
        match read_value(alloc, terms, path, number, value) {
            Ok(entry) => list.push((number, entry))?,
            Err(e) => return Err(e),
        }
    }
    Ok(Listed::new(list))
}

/// The members of a map by numbers.
pub(crate) fn write_entries<E: EntryText>(
    alloc: Global,
    entries: &[(u64, E)],
) -> Result<Object, AllocError>
    ensures { IfOk result (λ o. o ≡ objects_members E.members entries.now) }
{
    let mut object = Object::empty(alloc);
    for i in 0..entries.len() {
        let entry = &entries[i];
        write_entry(alloc, &mut object, entry)?;
    }
    Ok(object)
}

fn write_entry<E: EntryText>(
    alloc: Global,
    object: &mut Object,
    entry: &(u64, E),
) -> Result<(), AllocError>
    ensures { OnOk result
        (object.new
        ≡ with_member (decimal entry.now.0) (object_data (E.members entry.now.1)) object.old) }
{
    let members = entry.1.write(alloc)?;
    let name = decimal_text(alloc, entry.0)?;
    object.put(alloc, name.as_str(), Value::Object(members.into_map()))
}
