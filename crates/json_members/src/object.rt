ghost use Rattle.std.specs.Prelude.{◌≡◌, IfOk, OnOk, OnErr, option_map};
ghost use Rattle.serde_json.specs.Data.{put as with_member, no_members};
ghost use Rattle.serde_json.specs.Find.{get_member};
ghost use Rattle.serde_json.specs.View.{view, members_view};
ghost use Rattle.json_members.specs.Members.{without};

use serde_json::{Map, Value};
use std::alloc::{AllocError, Global};
use std::marker::Model;

/// The members of a JSON object, each name once, which contracts see as the data that they are.
pub struct Object {
    map: Map<String, Value>,
}

// By hand, so that a value that is dropped in place is one call to the prover.
impl Drop for Object {
    fn drop(self) {
        let Object { map } = self;
        drop(map);
    }
}

impl Model for Object {
    ghost use Rattle.serde_json.specs.Data.{Members};
    ghost use Rattle.json_members.specs.Codes.{members_code};

    ghost Value = { Members };

    ghost coded = { members_code };

    ghost use Rattle.serde_json.specs.View.{members_view};

    ghost view = { λ object. members_view object.map.entries };
}

impl Object {
    /// No members.
    pub fn empty(alloc: Global) -> Object
        ensures { result ≡ no_members }
    {
        Object {
            map: Map::new(alloc),
        }
    }

    /// The object that holds the members of a map.
    pub fn new(map: Map<String, Value>) -> Object
        ensures { result ≡ members_view map.entries }
    {
        Object { map }
    }

    /// The map of the members.
    pub fn into_map(self) -> Map<String, Value>
        ensures { members_view result.entries ≡ self }
    {
        let Object { map } = self;
        map
    }

    /// The member of a name, if there is one.
    pub fn get(&self, name: &str) -> Option<&Value>
        ensures { option_map (λ v. view v.now) result ≡ get_member name.now self.now }
    {
        self.map.get(name)
    }

    /// Takes the member of a name out, if there is one.
    pub fn take(&mut self, name: &str) -> Option<Value>
        ensures taken { option_map view result ≡ get_member name.now self.old }
        ensures rest { self.new ≡ without name.now self.old }
    {
        let _ordered = self.map.len();
        self.map.remove(name)
    }

    /// Takes the member of a name away, if there is one.
    pub fn drop_member(&mut self, name: &str)
        ensures { self.new ≡ without name.now self.old }
    {
        drop(self.take(name));
    }

    /// Sets the member of a name. Where memory runs out the object is as it was.
    pub fn put(&mut self, alloc: Global, name: &str, value: Value) -> Result<(), AllocError>
        ensures ok { OnOk result (self.new ≡ with_member name.now (view value) self.old) }
        ensures err { OnErr result (self.new ≡ self.old) }
    {
        serde_json::put(&mut self.map, alloc, name, value)
    }

    /// The same members again.
    pub fn copy(&self, alloc: Global) -> Result<Object, AllocError>
        ensures { IfOk result (λ o. o ≡ self.now) }
    {
        Ok(Object {
            map: copy_members(alloc, &self.map)?,
        })
    }
}

/// The members of a map again.
pub fn copy_members(
    alloc: Global,
    members: &Map<String, Value>,
) -> Result<Map<String, Value>, AllocError>
    ensures { IfOk result (λ m. members_view m.entries ≡ members_view members.now.entries) }
{
    let mut copies = Map::new(alloc);
    for (key, member) in members.iter() {
        let name = key.clone()?;
        drop(copies.insert(name, member.clone()?)?);
    }
    Ok(copies)
}
