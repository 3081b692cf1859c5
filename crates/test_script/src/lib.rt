//! Scripts of tests: commands on disks, keys and clients in memory, and what they show. A program runs
//! the commands (`Program`); what a script settles before each, what is shown of it, and how its device
//! calls are stopped or fail stands here. `show_script` shows a file of the scripts' folder.
//!
//! A line that is empty or begins with `#` is none; words have a space between them, texts a tab.
//! SPELLED are bytes in words: a name, or hexadecimal digits, and `WORD*N` is a word N times.
//!
//! Lines that name bytes, of which the last ones of a name count:
//! - `bytes NAME SPELLED`, `text NAME TEXT` and `file NAME PATH` (of the scripts' folder);
//! - `rising NAME LENGTH FIRST MODULUS`: bytes that rise from this one, and begin with 0 again at the
//!   modulus;
//! - `drawn NAME SEED ATOM`: 500 requests to a disk of 16 blocks of so many bytes, by linear
//!   congruential numbers;
//! - `edited NAME BASE<tab>FROM<tab>TO..`: a text with others in place of its parts.
//!
//! Disks, which have the same bytes from one command to the next:
//! - `disk NAME ATOM ATOMS BYTE`: all bytes are this one. The first name is the disk's, a second one
//!   that of a detached header; the first name again begins anew with it alone;
//! - `put NAME AT SPELLED`, `fill NAME AT LENGTH BYTE`: bytes at a byte; `tail NAME BYTES`: it has so many
//!   bytes behind its last whole atom;
//! - `copy NAME AT SIZE NUMBER LETTER TEXT`: a copy of a header of a named text;
//! - `sum NAME AT SIZE`: such a copy's checksum is made right; `token NAME LETTERS`: both copies of
//!   16384 bytes have a token with so many letters.
//!
//! Settled from there on: `key NAME SPELLED`, a key file, in place of one of its name; `seeds FIRST STEP`, the bytes that are drawn
//! rise from the first one by so much (at first 0 and 1); each `format` and `init` draws the next 32.
//!
//! Settled for the next command alone:
//! - `client SPELLED`, what a client sends; `cuts SPELLED`, a client for each byte of these, whose
//!   input ends before it; `limits PIECE ROOM`, in how many bytes these come at most, and how many a
//!   client takes;
//! - `room BYTES` of the output; `meet STEP`, where the first operation that is admitted is held until
//!   the conversion's worker has come to this step, and the worker there until a second operation is
//!   admitted (with 0 the first operation until a second one is);
//! - `fails WHOSE NUMBERS`, the calls that fail of a disk by its name, of the `bay`, the `seeds`, the
//!   `out`put, or a link from `link0` on; `stop CALLS`, behind which each call of the disk fails;
//! - `left WHAT`, what is left of the disks: what they hold (`held`), or an image that a stop may
//!   leave: the `oldest` or the `newest` of each atom, or by a list of numbers that goes round (`0,1`);
//! - `tried NUMBERS`, `again NUMBERS` and `reader WORDS`, of the two last commands below.
//!
//! Commands, each of which is shown as it stands, and behind it what it comes to:
//! - `run WORDS`: the status, its cause and the text that is printed; why there is no header or no
//!   volume; what people are told besides (`says`); what the gate was told of a conversion; of each session its link, its number, how it
//!   ended, the bytes that were taken and put, and these, of more than 64 their SHA-256; whether
//!   clients and worker met; and of each disk that was handed back how many device calls there were,
//!   and the SHA-256 of what is left;
//! - `loose WORDS`: the same without calls, sums and what the gate was told, where threads may order
//!   calls in more than one way;
//! - `stops WORDS`: the command is stopped within each device call that is tried, or each that it
//!   makes, and behind the last one; for each how it ended, and for four images how each goes on: the
//!   status of the same command stopped once more, within a call of `again`; what `status` tells of
//!   the conversion on the same image of what that left; the status of the same command on it; and
//!   the status of the reader on what that left, and what its client is put (of its SHA-256 8 bytes).
//!   At the end comes the SHA-256 of all those images;
//! - `faults WORDS`: each device call fails once; how the command ended, its text and its calls, the
//!   SHA-256 of the disk; then how it ends that is given again, and what the reader is put.
//!
//! What no command shows:
//! - `words WORDS`: the first line that a person is told of words that ask for nothing, else `taken`;
//! - `value seal CIPHER KEY SECTOR NUMBER BYTES`, bytes sealed by sectors from that number on; `value
//!   xts KEY KEY NUMBER BYTES`, as one sector under the keys of body and tweak; `value cbc KEY KEY
//!   NUMBER BYTES`, under those of body and initialization vector; `value hmac HASH KEY TEXT`; `value
//!   derive HASH PASSWORD SALT ROUNDS LENGTH`; `value split HASH KEY DRAWN STRIPES`, the last stripe
//!   of a key. Each of these words spells bytes or is a number;
//! - `metadata WORDS`, with a tab between two: the header of a conversion, step by step, from the one
//!   that the lines before have come to. `header`, the bytes of a copy, those of an atom, the atoms of
//!   the header's disk and of the main disk (the first `attached` where the two are one) and the text or
//!   the name of one: this header is taken. `bare` and the same, but what is wished for and the new key in place of the
//!   text: the conversion of a disk without a header begins. `start`, the bytes of a copy of the next
//!   header, what is wished for and the new key: a conversion begins. `begin`, a passphrase, the bytes
//!   of the new key and of a sector, the direction, `journal` or `checksum`, and the bytes of the
//!   largest zone: one begins with a key of its own. `open` and `move` with how many blocks, and
//!   `finish` with 0. What is wished for are metadata too: their keyslot of a conversion, the cipher
//!   and the sectors of their segment, and the sizes of the next header; the new key is `-` or the
//!   keyslot and the digest of metadata, in a copy of 16384 bytes. It shows where the volume's blocks
//!   lie, or which rule its metadata break, and the text where the line has made it; or what stands in
//!   the way. Metadata that break a rule are no header to go on from.
#![tactic(auto)]

mod bytes;
mod digests;
mod disks;
mod draws;
mod editing;
mod headers;
mod lines;
mod meeting;
mod metadata;
mod numbers;
mod program;
mod running;
mod sessions;
mod setup;
mod showing;
mod stops;
mod vectors;
mod world;

pub use meeting::ScriptGate;
pub use metadata::text_of;
pub use numbers::{number, small_number};
pub use program::{Finished, Program};
pub use showing::show_script;
