// The words behind the program's name.
ghost use Rattle.std.specs.Prelude.{[], ◌∷◌, map, string_bytes};
ghost use Rattle.commands.specs.Words.{AsksOutput, AsksNumber, AsksRack, AsksCommand};

use crate::command::{Command, Output};
use crate::words::first_word;
use scripts::number;

// The file that the words name; the word behind it says that it may be replaced.
fn output(words: &[String]) -> Option<Output<'_>>
    ensures { AsksOutput (map string_bytes words.now) result }
{
    let (file, rest) = first_word(words)?;
    match first_word(rest) {
        None => Some(Output {
            file,
            replace: false,
        }),
        Some(("replace", [])) => Some(Output {
            file,
            replace: true,
        }),
        Some(_) => None,
    }
}

// The number that is the only word.
fn only_number(words: &[String]) -> Option<usize>
    ensures { AsksNumber (map string_bytes words.now) result }
{
    match first_word(words)? {
        (word, []) => number(word),
        _ => None,
    }
}

// The rack that the words name, and its file.
fn rack(words: &[String]) -> Option<Command<'_>>
    ensures { AsksRack (map string_bytes words.now) result }
{
    let (loggers, words) = first_word(words)?;
    let (baths, words) = first_word(words)?;
    let loggers = number(loggers)?;
    let baths = number(baths)?;
    let output = output(words)?;
    Some(Command::Rack {
        loggers,
        baths,
        output,
    })
}

// The command that has no more words than this one.
fn alone<'a>(word: &str) -> Option<Command<'a>>
    ensures { AsksCommand (word.now ∷ []) result }
{
    match word {
        "check" => Some(Command::Check),
        "run" => Some(Command::Run),
        "help" => Some(Command::Help),
        _ => None,
    }
}

// The command that the words behind the program's name ask for; none where they ask for none.
pub fn parse(words: &[String]) -> Option<Command<'_>>
    ensures { AsksCommand (map string_bytes words.now) result }
{
    let Some((word, rest)) = first_word(words) else {
        return Some(Command::List);
    };
    match word {
        "rack" => rack(rest),
        "recast" => Some(Command::Recast(output(rest)?)),
        "explain" => Some(Command::Explain(only_number(rest)?)),
        _ if rest.is_empty() => alone(word),
        _ => None,
    }
}
