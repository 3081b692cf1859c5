// What workers leave.

ghost use Rattle.std.specs.Prelude.{◌≡◌, ◌≤◌, ◌+◌, ◌++◌, ℕ, [], ◌∷◌, length, map, IfOk, vec_capacity};
ghost use Rattle.block_server.specs.Leaving.{HasRoom, IsRoomFor};

use crate::link::Standing;
use nbd_session::SessionEnd;
use std::alloc::{AllocError, Global};

/// What workers leave, in their order: their links, the ends of each link's sessions, and how the
/// links stand.
#[derive(Drop)]
pub struct Leavings<L: Drop> {
    pub links: Vec<L>,
    pub sessions: Vec<Vec<SessionEnd>>,
    pub standings: Vec<Standing>,
}

impl<L: Drop> Leavings<L> {
    /// Room for what so many workers leave.
    pub fn room_for(alloc: Global, count: usize) -> Result<Leavings<L>, AllocError>
        ensures { IfOk result (IsRoomFor count) }
    {
        Ok(Leavings {
            links: Vec::with_capacity(alloc, count)?,
            sessions: Vec::with_capacity(alloc, count)?,
            standings: Vec::with_capacity(alloc, count)?,
        })
    }

    /// Puts what one more worker leaves behind the others.
    pub fn put(&mut self, link: L, ends: Vec<SessionEnd>, standing: Standing)
        requires room { HasRoom 1 self.old }
        ensures room { (count : ℕ) → HasRoom (count + 1) self.old → HasRoom count self.new }
        ensures links { self.new.links.items ≡ self.old.links.items ++ link ∷ [] }
        ensures sessions { map (λ list. list.items) self.new.sessions.items
            ≡ map (λ list. list.items) self.old.sessions.items ++ ends.items ∷ [] }
        ensures standings { self.new.standings.items ≡ self.old.standings.items ++ standing ∷ [] }
    {
        put(&mut self.links, link);
        put(&mut self.sessions, ends);
        put(&mut self.standings, standing);
    }
}

/// Pushes onto a list that has room.
pub(crate) fn put<T: Drop>(list: &mut Vec<T>, item: T)
    requires { length list.old.items + 1 ≤ vec_capacity list.old }
    ensures items { list.new.items ≡ list.old.items ++ item ∷ [] }
    ensures capacity { vec_capacity list.old ≤ vec_capacity list.new }
{
    let Ok(()) = list.push(item) else {
        unreachable!()
    };
}
