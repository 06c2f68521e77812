// The commands, and the words that say them.
ghost use Rattle.std.specs.Prelude.{◌≡◌};
ghost use Rattle.clio_top.specs.Words.{without_options, demo_said, exchange_said, is_core, is_nested, demo_with_number, says, show_said};

use crate::numeral::number_in;
use dx_base::Text;
use dx_exchange::Mode;

/// What a run is asked to do.
#[derive(Clone, Copy, PartialEq, Eq)]
pub(crate) enum Command {
    /// To exchange the data, and to write documents too if `nested`.
    Exchanging { mode: Mode, nested: bool },
    /// To show the rules and the script.
    Showing { mode: Mode },
    /// To exchange the files of a demo.
    Demonstrating { number: u32, mode: Mode },
    /// To answer a query.
    Answering,
    /// To judge a given target.
    Judging,
    /// To compare two mappings.
    Comparing,
}

fn is_core(word: &Text) -> bool
    ensures { result ≡ is_core word.now }
{
    word.as_str() == "--core"
}

fn is_nested(word: &Text) -> bool
    ensures { result ≡ is_nested word.now }
{
    word.as_str() == "--nested"
}

// What is asked for after the word `show`.
fn show_said(options: &[Text]) -> Option<Command>
    ensures { result ≡ show_said options.now }
{
    match options {
        [] => Some(Command::Showing { mode: Mode::Plain }),
        [option] if is_core(option) => Some(Command::Showing { mode: Mode::Core }),
        _ => None,
    }
}

// What is asked for after the word `exchange`.
fn exchange_said(options: &[Text]) -> Option<Command>
    ensures { result ≡ exchange_said options.now }
{
    let (mode, nested) = match options {
        [] => (Mode::Plain, false),
        [option] if is_core(option) => (Mode::Core, false),
        [option] if is_nested(option) => (Mode::Plain, true),
        [one, other] if is_core(one) && is_nested(other) => (Mode::Core, true),
        [one, other] if is_nested(one) && is_core(other) => (Mode::Core, true),
        _ => return None,
    };
    Some(Command::Exchanging { mode, nested })
}

// The demo of a number.
fn numbered(word: &Text, mode: Mode) -> Option<Command>
    ensures { result ≡ demo_with_number word.now mode }
{
    let number = number_in(word)?;
    Some(Command::Demonstrating { number, mode })
}

// What is asked for after the word `demo`.
fn demo_said(options: &[Text]) -> Option<Command>
    ensures { result ≡ demo_said options.now }
{
    match options {
        [number] => numbered(number, Mode::Plain),
        [option, number] if is_core(option) => numbered(number, Mode::Core),
        [number, option] if is_core(option) => numbered(number, Mode::Core),
        _ => None,
    }
}

// A command without options.
fn alone(command: Command, options: &[Text]) -> Option<Command>
    ensures { result ≡ without_options command options.now }
{
    match options {
        [] => Some(command),
        _ => None,
    }
}

/// The command that the words say. None if they say none.
pub(crate) fn command_of(words: &[Text]) -> Option<Command>
    ensures { result ≡ says words.now }
{
    let (name, options) = words.split_first()?;
    match name.as_str() {
        "show" => show_said(options),
        "exchange" => exchange_said(options),
        "demo" => demo_said(options),
        "answer" => alone(Command::Answering, options),
        "judge" => alone(Command::Judging, options),
        "compare" => alone(Command::Comparing, options),
        _ => None,
    }
}
