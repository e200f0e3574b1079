//! What the words that the program is given ask for.
ghost use Rattle.std.specs.Prelude.{◌≡◌, codes, map, string_bytes};
ghost use Rattle.sip_survey_program.specs.Asked.{IsAskedBy, IsLogFor, IsRestFor, begin_with};

use crate::part_word::{number_of, part_of};
use crate::words::{Asked, Log};

/// The log that the words name: no word names the standard input, and one word names the file at this path. More words name no log.
fn log_of(words: &[String]) -> Option<Log<'_>>
    ensures { IsLogFor (map string_bytes words.now) result }
{
    match words {
        [] => Some(Log::Input),
        [file] => Some(Log::File(file.as_str())),
        _ => None,
    }
}

/// Whether the words begin with `--part` and one word more.
fn names_part(words: &[String]) -> bool
    ensures { result ≡ begin_with (codes "--part") (map string_bytes words.now) }
{
    words.len() >= 2 && words[0].as_str() == "--part"
}

/// Whether the words begin with `--forget` and one word more.
fn names_forget(words: &[String]) -> bool
    ensures { result ≡ begin_with (codes "--forget") (map string_bytes words.now) }
{
    words.len() >= 2 && words[0].as_str() == "--forget"
}

/// What the words ask for that come after the words about forgetting.
fn rest_of(words: &[String], forget: Option<u32>) -> Option<Asked<'_>>
    ensures { IsRestFor forget (map string_bytes words.now) result }
{
    if !names_part(words) {
        let log = log_of(words)?;
        return Some(Asked {
            log,
            part: None,
            forget,
        });
    }
    let part = part_of(words[1].as_str())?;
    let log = log_of(&words[2..])?;
    let part = Some(part);
    Some(Asked { log, part, forget })
}

/// What the words after the program's name ask for. No word asks for a survey of the standard input, and one word for a survey of the file at
/// this path. `--part` and `K/N` before them ask for part K of N alone, which are numbers without leading zeros, from 1 and below 2^32.
/// `--forget` and a number of milliseconds, from 0 and below 2^32, before all of these ask for a survey that forgets a transaction that is
/// over once its last entry is so old. Other words ask for nothing. It takes no memory.
pub fn asked(words: &[String]) -> Option<Asked<'_>>
    ensures { IsAskedBy (map string_bytes words.now) result }
{
    if !names_forget(words) {
        return rest_of(words, None);
    }
    let age = number_of(words[1].as_str())?;
    rest_of(&words[2..], Some(age))
}
