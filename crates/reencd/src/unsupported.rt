// The name that a header has where it isn't supported, for people.

use command_line::{Command, read_words};
use file_disk::FileSystem;
use json_members::JsonFaultKind;
use reenc_tool::StoreFault;
use serde_json::Value;
use std::alloc::Global;
use std::io::Stderr;

/// The longest header of LUKS2, its binary part and its text, in bytes (On-Disk Format 1.1,
/// section 2.1).
const LONGEST: u32 = 4_194_304;

/// Where its text begins.
const TEXT: usize = 4096;

/// How many characters of a name are told at most.
const TOLD: usize = 64;

/// Says in one line which name the first copy of a header has where one isn't supported, if that is
/// its fault. That copy on the words' disk is read once more for it: where it can't be read or has no
/// such name, nothing is said.
pub fn tell_name(
    files: &impl FileSystem,
    alloc: Global,
    errors: Stderr,
    words: &[String],
    fault: Option<&StoreFault>,
) {
    let Some(StoreFault::Json(fault)) = fault else {
        return;
    };
    if fault.kind != JsonFaultKind::Unsupported {
        return;
    }
    let path = fault.path.as_str();
    if let Some(header) = read_header(files, alloc, words)
        && let Some(name) = name_at(alloc, &header, path)
    {
        let path = path.escape_debug();
        let name = front(name).escape_debug();
        let _ = eprintln!(errors; "reencd: header: {path} of its first copy is {name}");
    }
}

/// The disk that the words name.
fn disk_of(alloc: Global, words: &[String]) -> Option<&str> {
    match read_words(alloc, words) {
        Ok(Command::Init(init)) => Some(init.disk),
        Ok(Command::Serve(serve)) => Some(serve.disk),
        Ok(Command::Resume(resume)) => Some(resume.disk),
        Ok(Command::Status(status)) => Some(status.disk),
        _ => None,
    }
}

/// The first copy of the header on the words' disk.
fn read_header(files: &impl FileSystem, alloc: Global, words: &[String]) -> Option<Value> {
    let disk = disk_of(alloc, words)?;
    let bytes = files.read_front(alloc, disk, LONGEST).ok()?;
    let text = bytes.as_slice().get(TEXT..)?;
    let end = text.iter().position(|byte| *byte == 0)?;
    let text = str::from_utf8(text.get(..end)?).ok()?;
    Value::from_str(alloc, text).ok()
}

/// The text at a path, whose keys have a slash between two.
fn name_at<'v>(alloc: Global, header: &'v Value, path: &str) -> Option<&'v str> {
    let mut pointer = String::from_str(alloc, "/").ok()?;
    pointer.push_str(path).ok()?;
    header.pointer(pointer.as_str())?.as_str()
}

/// The first characters of a name.
fn front(name: &str) -> &str {
    match name.char_indices().nth(TOLD) {
        Some((at, _)) => name.get(..at).unwrap_or(""),
        None => name,
    }
}
