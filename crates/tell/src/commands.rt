// What the tool is asked for, by its first argument.
ghost use Rattle.std.specs.Prelude.{◌≡◌};
ghost use Rattle.tell.specs.Commands.{is_help, command_in};

#[derive(Clone, Copy, PartialEq, Eq)]
pub enum Command {
    Link,
    Examine,
    Help,
}

fn is_help(word: &[u8]) -> bool
    ensures { result ≡ is_help word.now }
{
    word == b"help".as_slice() || word == b"--help".as_slice() || word == b"-h".as_slice()
}

#[tactic(auto, unfolding(crate::specs::Commands::command_in))]
pub fn asked(word: &[u8]) -> Option<Command>
    ensures { result ≡ command_in word.now }
{
    if word == b"link".as_slice() {
        Some(Command::Link)
    } else if word == b"examine".as_slice() {
        Some(Command::Examine)
    } else if is_help(word) {
        Some(Command::Help)
    } else {
        None
    }
}
