//! A law about the arguments, as the contract of a function that does nothing.
ghost use Rattle.command_line.specs.Laws.{TakenAsk};

/// Arguments in which `clap` finds no error ask for a command with its numbers, each in its range.
pub fn taken_words_ask()
    ensures { TakenAsk }
{}
