//! What the words that the program is given ask for.
ghost use Rattle.std.specs.Prelude.{decimal, map, string_bytes};
ghost use Rattle.sip_standard.specs.Asked.{IsAskedBy, IsEntryNumber};
ghost use Rattle.sip_program.specs.WordFor.{IsWordFor};

use itoa::Buffer;
use sip_standard::Asked;

/// The number of the first entry of a log.
const LEAST: u64 = 1;

/// The most entries of a log.
const MOST: u64 = 1_000_000;

/// The number of an entry: 1 to 1,000,000, without leading zeros.
fn entry_number(word: &str) -> Option<u64>
    ensures { IsWordFor IsEntryNumber decimal word.now result }
{
    let Ok(number) = word.parse::<u64>() else {
        return None;
    };
    if number < LEAST || number > MOST || Buffer::new().format(number) != word {
        return None;
    }
    Some(number)
}

/// What the words after the program's name ask for. No word asks for the verdict on the standard input; `check FILE` and `show FILE` ask for the
/// verdict on the file and for its log to be shown, and `states FILE ENTRY` for the states after that entry, whose number is 1 to 1,000,000 in
/// digits without a leading zero. Any other words ask for nothing. It takes no memory.
pub fn asked(words: &[String]) -> Option<Asked<'_>>
    ensures { IsAskedBy (map string_bytes words.now) result }
{
    match words {
        [] => Some(Asked::Input),
        [word, file] if word.as_str() == "check" => Some(Asked::Check(file.as_str())),
        [word, file] if word.as_str() == "show" => Some(Asked::Show(file.as_str())),
        [word, file, entry] if word.as_str() == "states" => {
            let entry = entry_number(entry.as_str())?;
            Some(Asked::States(file.as_str(), entry))
        }
        _ => None,
    }
}
