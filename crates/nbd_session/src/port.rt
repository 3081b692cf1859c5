ghost use Rattle.std.specs.Prelude.{◌≡◌, ℕ, IfOk, OnErr, List, [], ◌++◌};
ghost use Rattle.plain_disk.specs.Plain.{Exchange};
ghost use Rattle.nbd_session.specs.Ports.{exchanges_by, IfSpent, IsRepliedTo};

use base_terms::Bytes;
use plain_disk::{Op, Reply};
use std::alloc::{AllocError, Global};

/// What came of an operation that was submitted: its reply, or nothing, since the port takes none
/// any more.
#[derive(Drop)]
pub enum Submitted {
    /// The reply, and a buffer that the port has no more use for: that of a write's body, say. What
    /// is in it isn't to be used.
    Replied(Reply, Bytes),
    Spent,
}

/// Where a session submits the operations of its client.
pub trait Port {
    /// From an old state to a new one these operations were submitted and answered, and no others.
    ghost did: { Self → Self → List Exchange → Type 0 };

    /// It has come to its end, and takes no operation any more.
    ghost is_spent: { Self → Type 0 };

    /// Operations may be submitted to it. It stays so, also where it is spent.
    ghost usable: { Self → Type 0 };

    /// Executes an operation and answers it: a read by its content or an error, any other by
    /// `Done` or an error. A content is of as many bytes as the read asks for, at most 33554432,
    /// ending within 2^64; an error isn't 0, and its place, which a read's may have, is an offset
    /// in the range. The spare buffer is for its use, as for the content of a read; what is in it
    /// isn't to be used. Where memory is wanted, or the port is spent, nothing was done.
    fn submit(&mut self, alloc: Global, op: Op, spare: Bytes) -> Result<Submitted, AllocError>
        requires usable { usable self.old }
        ensures usable { usable self.new }
        ensures ok { IfOk result
            (λ submitted. (n : ℕ) × did self.old self.new (exchanges_by op n submitted)) }
        ensures reply { IfOk result (λ submitted. IsRepliedTo op submitted) }
        ensures spent { IfOk result (λ submitted. IfSpent submitted (is_spent self.new)) }
        ensures err { OnErr result (did self.old self.new []) };

    ghost did_none: { (port : Self) → did port port [] };

    ghost did_more: { (first second third : Self) (xs ys : List Exchange) →
        did first second xs → did second third ys → did first third (xs ++ ys) };
}
