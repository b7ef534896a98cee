//! How many keys a node knows, and whether it forgets those of its own that have ended there: `knows KEYS`, `forgets KEYS`, or no words
//! at all, which is `knows 65536`.

ghost use Rattle.std.specs.Prelude.{IfOk};
ghost use Rattle.sv_model.specs.Ranges.{IsSetting};

use crate::fault::RowFault;
use crate::words::{number, word};
use sv_model::Setting;
use sv_world::Rules;

/// The seconds for which a request waits for its session.
const DEADLINE: u64 = 30;

fn keys(word: &str) -> Result<u32, RowFault> {
    match u32::try_from(number(word)?) {
        Ok(keys) => Ok(keys),
        Err(_) => Err(RowFault::Word),
    }
}

/// The rules that some words say.
pub fn rules(words: &str) -> Result<Rules, RowFault> {
    let mut rules = Rules::of(DEADLINE);
    match word(words) {
        ("", _) => {}
        ("knows", rest) => rules.keys = keys(rest)?,
        ("forgets", rest) => {
            rules.keys = keys(rest)?;
            rules.forget = true;
        }
        _ => return Err(RowFault::Word),
    }
    Ok(rules)
}

/// The setting that the words `NODE RULES` say, of one of three nodes.
pub fn setting(words: &str) -> Result<Setting, RowFault>
    ensures { IfOk result (λ setting. IsSetting setting) }
{
    let (node, rest) = word(words);
    let rules = rules(rest)?;
    match node {
        "0" => Ok(rules.setting(0, 3)),
        "1" => Ok(rules.setting(1, 3)),
        _ => Err(RowFault::Word),
    }
}
