// What follows of the definitions alone.

ghost use Rattle.std.specs.Prelude.{ℕ, ◌≡◌, ◌+◌, ◌%◌, ◌<◌, ◌≤◌, List, length};
ghost use Rattle.plain_disk.specs.Plain.{edged};

/// A body of whole blocks that begins where a block does leaves no byte of its blocks as it was:
/// they become the body.
pub fn aligned_bodies_are_edged()
    ensures { (atom offset : ℕ) (bytes body : List ℕ) → 0 < atom → offset % atom ≡ 0 →
        length body % atom ≡ 0 → offset + length body ≤ length bytes →
        edged atom bytes offset body ≡ body }
{}
