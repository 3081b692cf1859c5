ghost use Rattle.std.specs.Prelude.{◌≡◌, ◌<◌};
ghost use Rattle.memory_disks.specs.Images.{IsChoice, place_of};

/// Which image of a disk a restart takes: of each atom the newest candidate, the oldest, or of atom
/// `i` the one of number `numbers[i mod len] mod count`, where `count` is how many it has and the
/// oldest has number 0.
#[derive(Drop)]
pub enum Choice {
    Newest,
    Oldest,
    Pick(Vec<u64>),
}

/// Which of so many candidates the choice takes of an atom.
pub(crate) fn place_in(choice: &Choice, atom: usize, count: usize) -> usize
    requires choice { IsChoice choice.now }
    requires some { 0 < count }
    ensures place { result ≡ place_of choice.now atom count }
    ensures within { result < count }
{
    match choice {
        Choice::Newest => count - 1,
        Choice::Oldest => 0,
        Choice::Pick(numbers) => (numbers[atom % numbers.len()] % count as u64) as usize,
    }
}
