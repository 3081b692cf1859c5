// A key file that opens nothing and ends with a line feed, for people.

use command_line::{Command, read_words};
use file_disk::FileSystem;
use reenc_tool::{OpeningRefusal, ResumeRefusal, SlotFault, SlotRefusal, VolumeRefusal};
use std::alloc::Global;
use std::io::Stderr;

/// How many bytes are read of a key file: one more than a passphrase has at most.
const FRONT: u32 = 513;

/// Says in one line that the words' key file ends with a line feed, where it does and a keyslot was
/// tried that it doesn't open. The file is read once more for it, but not one that tells no length, as
/// a pipe does.
pub fn tell_line_feed(
    files: &impl FileSystem,
    alloc: Global,
    errors: Stderr,
    words: &[String],
    refusal: Option<&VolumeRefusal>,
) {
    if !was_tried(refusal) {
        return;
    }
    if let Some(key_file) = key_file_of(alloc, words)
        && ends_with_line_feed(files, alloc, key_file)
    {
        let _ = eprintln!(errors;
            "reencd: {key_file}: it ends with a line feed, which is part of the passphrase"
        );
    }
}

/// Whether a keyslot was tried that the passphrase doesn't open.
fn was_tried(refusal: Option<&VolumeRefusal>) -> bool {
    match refusal {
        Some(VolumeRefusal::Opening(OpeningRefusal::Slots(fault))) => has_other_key(fault),
        Some(VolumeRefusal::Resuming(ResumeRefusal::Slots(_, fault))) => has_other_key(fault),
        _ => false,
    }
}

/// Whether what the passphrase gives of a keyslot isn't the key.
fn has_other_key(fault: &SlotFault) -> bool {
    match fault {
        SlotFault::NoKey(slots) => slots
            .as_slice()
            .iter()
            .any(|slot| slot.1 == SlotRefusal::DigestDiffers),
        _ => false,
    }
}

/// The key file that the words name.
fn key_file_of(alloc: Global, words: &[String]) -> Option<&str> {
    match read_words(alloc, words) {
        Ok(Command::Init(init)) => Some(init.key_file),
        Ok(Command::Serve(serve)) => serve.key_file,
        Ok(Command::Resume(resume)) => Some(resume.key_file),
        _ => None,
    }
}

/// Whether the file of that name has a length, and ends with a line feed.
fn ends_with_line_feed(files: &impl FileSystem, alloc: Global, path: &str) -> bool {
    match files.length(path) {
        Ok(bytes) if bytes > 0 => match files.read_front(alloc, path, FRONT) {
            Ok(key) => key.as_slice().ends_with(b"\n"),
            Err(_) => false,
        },
        _ => false,
    }
}
