// The public functions: a round file is cleared into a lent result, or listed as text. Each contract speaks of the file's bytes and of the
// lent bytes through the definitions of crate rules.
#![tactic(auto)]

ghost use Rattle.std.specs.Prelude.{◌≡◌, ◌≤◌, ◌<◌, length};
ghost use Rattle.rules.specs.Answer.{answer_in};
ghost use Rattle.rules.specs.File.{round_of};
ghost use Rattle.rules.specs.Reading.{Accepted};
ghost use Rattle.rules.specs.Refusals.{reading};
ghost use Rattle.rules.specs.Result.{length_of};
ghost use Rattle.result.specs.Tells.{Tells};
ghost use Rattle.listing.specs.ToldLines.{longest};
ghost use Rattle.round.specs.Round.{Clears, SmallAnswer, Lists};

use result::Tellings;
use rows::RoundFile;
use rules::{Refusal, Rule, Sections};

// What is told of an accepted file, whose sections these are.
fn told(file: &[u8], sections: Sections) -> Tellings
    requires { reading file.now ≡ Accepted sections }
    ensures { Tells (round_of file.now) result }
{
    tell::tell(&RoundFile { file, sections })
}

// An accepted file cleared into a lent result, if that is long enough.
fn cleared(file: &[u8], sections: Sections, res: &mut [u8]) -> Result<usize, Refusal>
    requires { reading file.now ≡ Accepted sections }
    ensures { Clears file.now res.old (answer_in result) res.new × SmallAnswer (answer_in result) }
{
    let need = result::needed(sections);
    if res.len() < need {
        return Err(Refusal {
            rule: Rule::ResultShort,
            at: 0,
        });
    }
    let t = told(file, sections);
    result::write(t, sections, res);
    Ok(need)
}

// Clears a round file into a lent result.
pub fn clear(file: &[u8], res: &mut [u8]) -> Result<usize, Refusal>
    ensures { Clears file.now res.old (answer_in result) res.new × SmallAnswer (answer_in result) }
{
    let sections = file::read(file)?;
    cleared(file, sections, res)
}

// How long a result a file needs, 0 where it is refused.
pub fn result_len(file: &[u8]) -> usize
    ensures { result ≡ length_of file.now }
{
    file::read(file).map_or(0, result::needed)
}

// The listing of an accepted file.
fn lines(file: &[u8], sections: Sections, text: &mut [u8]) -> usize
    requires accepted { reading file.now ≡ Accepted sections }
    requires room { longest ≤ length text.old }
    ensures { Lists file.now text.old result text.new }
{
    let t = told(file, sections);
    listing::write(t, sections, text)
}

// The listing of a file over the start of a lent text, and its length: 0, and nothing is written, where the text is shorter than the longest listing.
pub fn list(file: &[u8], text: &mut [u8]) -> usize
    ensures { Lists file.now text.old result text.new }
{
    if text.len() < listing::LONGEST {
        return 0;
    }
    match file::read(file) {
        Ok(sections) => lines(file, sections, text),
        Err(refusal) => listing::refused(refusal.rule.number(), refusal.at, text),
    }
}
