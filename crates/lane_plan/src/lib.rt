//! The plan of one operation on a lane of a volume: a machine without a volume, that is told what
//! its last call answered and says its next one. It begins with the operation's admit, asks again
//! while others have its blocks, reads or writes the pieces that it is granted, waits until they
//! are certain to be kept where the operation asks for that, finishes, and then gives the reply.
//! All the memory that the operation needs is taken before its admit; sealing and opening happen
//! between the calls, with the keys that it is lent.
//!
//! The layer above may rely on one relation, `Awaits`: how a lane stands by its own calls alone,
//! while the answer to the last of them is awaited. Each call meets its conditions after those
//! before it, and with the reply exactly this operation was answered, with this reply and for its
//! session. Nothing is asked of what other lanes do, so a plan serves over a volume at hand and
//! over one that threads share.
#![tactic(auto)]

mod buffers;
mod calls;
mod plan;

pub use calls::{Answer, Call, Next};
pub use plan::{Plan, Shape};
