ghost use Rattle.std.specs.Prelude.{◌≡◌, IfOk, false};
ghost use Rattle.clap.specs.Words.{app_of};
ghost use Rattle.clap.specs.declared.builder.command.Command.TheViews.{out-Command};
ghost use Rattle.command_line.specs.Items.{leaf_app};
ghost use Rattle.command_line.specs.Product.{
  format_app,
  init_app,
  serve_app,
  resume_app,
  status_app,
  demo_app,
  product,
};

use crate::item::{Item, leaf};
use clap::Command;
use std::alloc::{AllocError, Global};

const HEADER: Item = Item::Unbuilt {
    name: "header",
    value: "DISK",
};

const ATOM: Item = Item::Valued {
    name: "atom",
    value: "BYTES",
    help: "The bytes that are read and written as one: 512 or 4096 [default: 4096]",
    required: false,
};

/// A line feed at its end is of the passphrase, as it is for the `--key-file` of cryptsetup.
const KEY_FILE_HELP: &str =
    "The file whose whole content, 1 to 512 bytes, is the passphrase, a line feed at its end too";

const KEY_FILE: Item = Item::Valued {
    name: "key-file",
    value: "FILE",
    help: KEY_FILE_HELP,
    required: true,
};

const CIPHER: Item = Item::Valued {
    name: "cipher",
    value: "NAME",
    help: "aes-xts-plain64 or aes-cbc-essiv:sha256 [default: aes-xts-plain64]",
    required: false,
};

const KEY_SIZE: Item = Item::Valued {
    name: "key-size",
    value: "BYTES",
    help: "The bytes (not bits) of the key: xts 32 or 64 [default: 64], cbc 16 or 32 [default: 32]",
    required: false,
};

const SECTOR_SIZE: Item = Item::Valued {
    name: "sector-size",
    value: "BYTES",
    help: "The bytes of a sector: 512, 1024, 2048 or 4096, no more than --atom [default: 512]",
    required: false,
};

const ITERATIONS: Item = Item::Valued {
    name: "iterations",
    value: "N",
    help: "The rounds of PBKDF2: 1000 to 268435456 [default: 100000]",
    required: false,
};

const METADATA_SIZE: Item = Item::Valued {
    name: "metadata-size",
    value: "BYTES",
    help: "The bytes of one copy of the header: 16384, doubled up to 4194304 [default: 16384]",
    required: false,
};

// At the end of each command's help.
const FORMAT_EXAMPLE: &str = "Example: reencd format disk.img --key-file key";

const INIT_EXAMPLE: &str =
    "Example: reencd init disk.img --key-file key --key-size 64 --sector-size 4096";

const SERVE_EXAMPLE: &str =
    "Example: reencd serve disk.img --key-file key --listen 127.0.0.1:10809";

const RESUME_EXAMPLE: &str = "Example: reencd resume disk.img --key-file key";

const STATUS_EXAMPLE: &str = "Example: reencd status disk.img";

const DEMO_EXAMPLE: &str = "Example: reencd demo --seed 5 --blocks 64 --workers 4";

#[tactic(auto, unfolding(crate::specs::Product::format_rules))]
fn format<'a>(alloc: Global) -> Result<Command<'a>, AllocError>
    ensures shape { IfOk result (λ c. app_of c ≡ format_app) }
    ensures local { IfOk result (λ c. (out-Command c).has_globals ≡ false) }
{
    let items = [
        Item::Disk,
        Item::Valued {
            name: "header",
            value: "DISK",
            help: "The disk that is to have the header [default: the same disk]",
            required: false,
        },
        ATOM,
        KEY_FILE,
        CIPHER,
        KEY_SIZE,
        SECTOR_SIZE,
        ITERATIONS,
        METADATA_SIZE,
        Item::Valued {
            name: "data-offset",
            value: "BYTES",
            help: "The byte where the data begins, a multiple of 4096 [default: 16777216, with --header 0]",
            required: false,
        },
        Item::Valued {
            name: "uuid",
            value: "UUID",
            help: "The identifier of the volume [default: a random one]",
            required: false,
        },
    ];
    leaf(alloc, "format", "Make a new volume", FORMAT_EXAMPLE, &items)
}

#[tactic(auto, unfolding(crate::specs::Product::init_rules))]
fn init<'a>(alloc: Global) -> Result<Command<'a>, AllocError>
    ensures shape { IfOk result (λ c. app_of c ≡ init_app) }
    ensures local { IfOk result (λ c. (out-Command c).has_globals ≡ false) }
{
    let items = [
        Item::Disk,
        HEADER,
        ATOM,
        KEY_FILE,
        CIPHER,
        KEY_SIZE,
        SECTOR_SIZE,
        ITERATIONS,
        Item::Unbuilt {
            name: "metadata-size",
            value: "BYTES",
        },
        Item::Valued {
            name: "resilience",
            value: "NAME",
            help: "What keeps a zone safe: journal or checksum [default: journal]",
            required: false,
        },
        Item::Valued {
            name: "direction",
            value: "NAME",
            help: "In which order blocks are converted: forward or backward [default: forward]",
            required: false,
        },
        Item::Valued {
            name: "hotzone-size",
            value: "BYTES",
            help: "Room for the blocks of one zone, a multiple of --atom, at most 67108864 [default: 1048576]",
            required: false,
        },
        Item::Unbuilt {
            name: "shift",
            value: "BYTES",
        },
        Item::UnbuiltFlag { name: "encrypt" },
        Item::UnbuiltFlag { name: "decrypt" },
        Item::Flag {
            name: "drop-keyslots",
            help: "Drop keyslots of other passphrases: the new key gets one keyslot, for this passphrase",
        },
    ];
    leaf(
        alloc,
        "init",
        "Begin to convert a volume to a new key, which one keyslot holds, for the passphrase that is given",
        INIT_EXAMPLE,
        &items,
    )
}

#[tactic(auto, unfolding(crate::specs::Product::serve_rules))]
fn serve<'a>(alloc: Global) -> Result<Command<'a>, AllocError>
    ensures shape { IfOk result (λ c. app_of c ≡ serve_app) }
    ensures local { IfOk result (λ c. (out-Command c).has_globals ≡ false) }
{
    let items = [
        Item::Disk,
        HEADER,
        ATOM,
        Item::Valued {
            name: "key-file",
            value: "FILE",
            help: KEY_FILE_HELP,
            required: false,
        },
        Item::Flag {
            name: "plain",
            help: "Serve the disk as it is, without a header",
        },
        Item::Valued {
            name: "listen",
            value: "ADDRESS",
            help: "Where clients connect: HOST:PORT, or unix:PATH",
            required: true,
        },
        Item::Valued {
            name: "workers",
            value: "N",
            help: "The sessions that are served at once: 1 to 16 [default: 4]",
            required: false,
        },
        Item::Valued {
            name: "sessions",
            value: "N",
            help: "The sessions behind which the service ends: 1 to 4294967295 [default: 4294967295]",
            required: false,
        },
        Item::Flag {
            name: "no-worker",
            help: "Don't convert meanwhile",
        },
        Item::Valued {
            name: "idle-timeout",
            value: "SECONDS",
            help: "Drop a client that sends or takes nothing for so long: 1 to 86400 [default: never]",
            required: false,
        },
        Item::Flag {
            name: "verbose",
            help: "Say when a session begins and ends",
        },
    ];
    leaf(
        alloc,
        "serve",
        "Serve a disk to NBD clients",
        SERVE_EXAMPLE,
        &items,
    )
}

#[tactic(auto, unfolding(crate::specs::Product::resume_rules))]
fn resume<'a>(alloc: Global) -> Result<Command<'a>, AllocError>
    ensures shape { IfOk result (λ c. app_of c ≡ resume_app) }
    ensures local { IfOk result (λ c. (out-Command c).has_globals ≡ false) }
{
    let items = [Item::Disk, HEADER, ATOM, KEY_FILE];
    leaf(
        alloc,
        "resume",
        "Convert a volume to the end of its conversion",
        RESUME_EXAMPLE,
        &items,
    )
}

#[tactic(auto, unfolding(crate::specs::Product::status_rules))]
fn status<'a>(alloc: Global) -> Result<Command<'a>, AllocError>
    ensures shape { IfOk result (λ c. app_of c ≡ status_app) }
    ensures local { IfOk result (λ c. (out-Command c).has_globals ≡ false) }
{
    let items = [Item::Disk, HEADER, ATOM];
    leaf(
        alloc,
        "status",
        "Show what a volume's header says",
        STATUS_EXAMPLE,
        &items,
    )
}

#[tactic(auto, unfolding(crate::specs::Product::demo_rules))]
fn demo<'a>(alloc: Global) -> Result<Command<'a>, AllocError>
    ensures shape { IfOk result (λ c. app_of c ≡ demo_app) }
    ensures local { IfOk result (λ c. (out-Command c).has_globals ≡ false) }
{
    let items = [
        Item::Valued {
            name: "seed",
            value: "N",
            help: "What all random bytes come from: 0 to 18446744073709551615",
            required: true,
        },
        Item::Valued {
            name: "blocks",
            value: "N",
            help: "The blocks of the volume: 1 to 16384",
            required: true,
        },
        Item::Valued {
            name: "workers",
            value: "N",
            help: "The clients, which are served at once: 1 to 16",
            required: true,
        },
    ];
    leaf(
        alloc,
        "demo",
        "Convert a volume in memory while clients use it",
        DEMO_EXAMPLE,
        &items,
    )
}

/// The command of this name, as a person's texts show it; the whole command line where there is
/// none.
pub fn command_named<'a>(alloc: Global, name: &str) -> Result<Command<'a>, AllocError> {
    if name == "format" {
        format(alloc)?.bin_name("reencd format")
    } else if name == "init" {
        init(alloc)?.bin_name("reencd init")
    } else if name == "serve" {
        serve(alloc)?.bin_name("reencd serve")
    } else if name == "resume" {
        resume(alloc)?.bin_name("reencd resume")
    } else if name == "status" {
        status(alloc)?.bin_name("reencd status")
    } else if name == "demo" {
        demo(alloc)?.bin_name("reencd demo")
    } else {
        product(alloc)
    }
}

/// The whole command line, as `clap` reads it.
pub fn product<'a>(alloc: Global) -> Result<Command<'a>, AllocError>
    ensures { IfOk result (λ c. app_of c ≡ product) }
{
    let command = Command::new(alloc, "reencd").bin_name("reencd")?;
    command
        .about("Serves LUKS2 volumes over NBD while it converts them")
        .no_binary_name(true)
        .subcommand_required(true)
        .arg_required_else_help(true)
        .subcommand(format(alloc)?)?
        .subcommand(init(alloc)?)?
        .subcommand(serve(alloc)?)?
        .subcommand(resume(alloc)?)?
        .subcommand(status(alloc)?)?
        .subcommand(demo(alloc)?)
}
