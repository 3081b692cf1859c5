// The parts of work that threads take.

ghost use Rattle.std.specs.Prelude.{◌+◌, ◌*◌, ◌<◌, ◌≤◌};

/// How many blocks a part has, one at least, where so many blocks are cut into at most so many parts.
pub(crate) fn part_of(blocks: usize, parts: usize) -> usize
    requires { 0 < parts }
    ensures some { 0 < result }
    ensures few { result ≤ blocks + 1 }
    ensures enough { blocks ≤ parts * result }
{
    blocks.div_ceil(parts).max(1)
}
