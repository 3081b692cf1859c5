// The words of `resume`.

ghost use Rattle.std.specs.Prelude.{◌≡◌, IfOk};
ghost use Rattle.clap.specs.Words.{found_of, rows_of};
ghost use Rattle.command_line.specs.Resumes.{resuming, resuming_in};
ghost use Rattle.command_line.specs.Values.{IsAtomSize, Reads};

use crate::values::{Refused, atom_or_default, is_given, required};
use clap::ArgMatches;

/// `resume`: the conversion that is under way of the volume on a disk is led to its end.
#[derive(Clone, Copy)]
pub struct Resume<'a> {
    pub disk: &'a str,
    /// The file of the passphrase that opens the old key and the new one.
    pub key_file: &'a str,
    /// The bytes of an atom: 512 or 4096.
    pub atom: u32,
}

#[tactic(auto, unfolding(crate::specs::Resumes::resuming_in))]
pub fn read_resume<'a>(matches: &ArgMatches<'a>) -> Result<Resume<'a>, Refused>
    ensures reads { Reads resuming result (resuming_in (rows_of (found_of matches.now))) }
    ensures bounded { IfOk result (λ words. IsAtomSize words.atom) }
{
    let disk = required(matches, "disk")?;
    let key_file = required(matches, "key-file")?;
    let atom = atom_or_default(matches)?;
    if is_given(matches, "header") {
        return Err(Refused("resume takes no --header yet"));
    }
    Ok(Resume {
        disk,
        key_file,
        atom,
    })
}
