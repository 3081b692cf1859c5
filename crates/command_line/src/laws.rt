// A law of words, with nothing to run.

ghost use Rattle.command_line.specs.Commands.{asked};
ghost use Rattle.command_line.specs.Plain.{TakesDemo, TakesFormat, TakesInit, TakesResume};
ghost use Rattle.command_line.specs.Plain.{TakesServe, TakesStatus};

/// Plain words are never refused: behind `format`, `init`, `serve`, `resume` or `status` stand the
/// disk and the command's options, in any order and each at most once, an option's value in a word of its own
/// that doesn't begin with a hyphen. They ask for that command with these values, and with the
/// defaults of the options that are left out. Behind `demo` stand its three options alone.
pub fn plain_words_are_taken()
    ensures format { TakesFormat asked }
    ensures init { TakesInit asked }
    ensures serve { TakesServe asked }
    ensures resume { TakesResume asked }
    ensures status { TakesStatus asked }
    ensures demo { TakesDemo asked }
{}
