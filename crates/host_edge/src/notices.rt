use crate::network::Listener;
use std::alloc::Global;
use std::io::{self, Stderr};

/// Says in one line on standard error what the system refused and why, as `reencd: disk.img: No
/// such file or directory`. Where that line can't be put, nobody is told.
pub fn complain(alloc: Global, errors: Stderr, what: &str, error: &io::Error) {
    let _ = match error.to_string(alloc) {
        Ok(text) => eprintln!(errors; "reencd: {what}: {}", without_number(text.as_str())),
        Err(_) => eprintln!(errors; "reencd: {what}: {}", error.kind()),
    };
}

/// The system's words without the number that stands behind them.
fn without_number(text: &str) -> &str {
    match text.split_once(" (os error ") {
        Some((words, _)) => words,
        None => text,
    }
}

/// Says in one line on standard error where clients may connect from now on: the host and the port, or
/// the address that was asked for where there are none.
pub fn announce<L: Listener>(errors: Stderr, asked: &str, listener: &L) {
    let _ = match listener.address() {
        Ok(address) => eprintln!(errors; "reencd: listening on {address}"),
        Err(_) => eprintln!(errors; "reencd: listening on {asked}"),
    };
}
