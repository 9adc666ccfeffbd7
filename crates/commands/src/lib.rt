// The command, by its name.
#![tactic(auto)]

ghost use Rattle.std.specs.Prelude.{◌≡◌};
ghost use Rattle.commands.specs.Names.{command_of};

// What is asked of a cable, or of the sheet in a file.
#[derive(Clone, Copy, PartialEq, Eq)]
pub enum Asked {
    Share,
    Factor,
    Current,
}

#[derive(Clone, Copy, PartialEq, Eq)]
pub enum Command {
    Calculate(Asked),
    Rise,
    Explain,
    Help,
    Version,
}

// The command that a word names. No name has bytes that are not UTF-8.
pub fn command_of(word: &[u8]) -> Option<Command>
    ensures { result ≡ command_of word.now }
{
    named(std::str::from_utf8(word).ok()?)
}

#[tactic(auto, using(crate::proofs::ByName::by_name, crate::proofs::ByName::by_none), unfolding(crate::specs::Names::command_of, text::specs::Reading::same_bytes))]
fn named(word: &str) -> Option<Command>
    ensures { result ≡ command_of word.now }
{
    match word {
        "share" => Some(Command::Calculate(Asked::Share)),
        "factor" => Some(Command::Calculate(Asked::Factor)),
        "current" => Some(Command::Calculate(Asked::Current)),
        "rise" => Some(Command::Rise),
        "explain" => Some(Command::Explain),
        "help" | "--help" | "-h" => Some(Command::Help),
        "version" | "--version" => Some(Command::Version),
        _ => None,
    }
}
