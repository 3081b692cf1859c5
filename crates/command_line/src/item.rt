ghost use Rattle.std.specs.Prelude.{◌≡◌, IfOk, false, map};
ghost use Rattle.clap.specs.Words.{app_of, rule_of};
ghost use Rattle.clap.specs.declared.builder.command.Command.TheViews.{out-Command};
ghost use Rattle.command_line.specs.Items.{leaf_app, rule_for};

use clap::{Arg, ArgAction, Command};
use std::alloc::{AllocError, Global};

/// A word of a command, behind the command's name.
#[derive(Clone, Copy)]
pub enum Item {
    /// The disk, by its name.
    Disk,
    /// An option whose value is the next word.
    Valued {
        name: &'static str,
        value: &'static str,
        help: &'static str,
        required: bool,
    },
    /// An option without a value.
    Flag {
        name: &'static str,
        help: &'static str,
    },
    /// An option with a value that isn't built yet. It is refused where it is given, and help
    /// doesn't show it.
    Unbuilt {
        name: &'static str,
        value: &'static str,
    },
    /// The same without a value.
    UnbuiltFlag {
        name: &'static str,
    },
}

/// The argument of `clap` that a word is.
fn argument<'a>(alloc: Global, item: &Item) -> Arg<'a>
    ensures rule { rule_of result ≡ rule_for item.now }
    ensures local { result.global ≡ false }
{
    match *item {
        Item::Disk => Arg::new(alloc, "disk")
            .value_name("DISK")
            .help("The file or block device")
            .required(true)
            .action(ArgAction::Set),
        Item::Valued {
            name,
            value,
            help,
            required,
        } => Arg::new(alloc, name)
            .long(name)
            .value_name(value)
            .help(help)
            .required(required)
            .action(ArgAction::Set),
        Item::Flag { name, help } => Arg::new(alloc, name)
            .long(name)
            .help(help)
            .action(ArgAction::SetTrue),
        Item::Unbuilt { name, value } => Arg::new(alloc, name)
            .long(name)
            .value_name(value)
            .hide(true)
            .action(ArgAction::Set),
        Item::UnbuiltFlag { name } => Arg::new(alloc, name)
            .long(name)
            .hide(true)
            .action(ArgAction::SetTrue),
    }
}

/// The command of `clap` of that name, with these words behind it. Its help begins with what it is
/// about, and ends with an example.
pub fn leaf<'a>(
    alloc: Global,
    name: &'static str,
    about: &'static str,
    example: &'static str,
    items: &[Item],
) -> Result<Command<'a>, AllocError>
    ensures shape { IfOk result (λ c. app_of c ≡ leaf_app name.now (map rule_for items.now)) }
    ensures local { IfOk result (λ c. (out-Command c).has_globals ≡ false) }
{
    let mut command = Command::new(alloc, name).about(about).after_help(example);
    for item in items {
        command = command.arg(argument(alloc, item))?;
    }
    Ok(command)
}
