//! The word for a part of a log.
ghost use Rattle.std.specs.Prelude.{◌<◌, ◌^◌, decimal};
ghost use Rattle.sip_program.specs.WordFor.{IsWordFor};
ghost use Rattle.sip_survey_program.specs.PartWords.{IsPart, IsPartBetween, part_word};

use itoa::Buffer;
use sip_part::Part;

/// The number that a word is: below 2^32, and without a leading zero. None where the word is no such number.
pub(crate) fn number_of(word: &str) -> Option<u32>
    ensures { IsWordFor (λ number. number < 2 ^ 32) decimal word.now result }
{
    let Ok(number) = word.parse::<u32>() else {
        return None;
    };
    if Buffer::new().format(number) != word {
        return None;
    }
    Some(number)
}

/// The part that two words name: its number and the count of all parts.
fn part_between(number: &str, count: &str) -> Option<Part>
    ensures { IsPartBetween number.now count.now result }
{
    let number = number_of(number)?;
    let count = number_of(count)?;
    Part::new(number, count)
}

/// The part that a word names: `K/N` names part K of N, where K is 1 at least and N at most.
pub fn part_of(word: &str) -> Option<Part>
    ensures { IsWordFor IsPart part_word word.now result }
{
    let (number, count) = word.split_once('/')?;
    part_between(number, count)
}
