//! Numbers as words spell them.

ghost use Rattle.std.specs.Prelude.{◌≡◌, ◌≤◌, ◌-◌, ◌^◌, IfSome};
ghost use Rattle.um_answers.specs.Words.{states_number};

use um_command::number;

/// The number of states that a word spells, if it is one: 1 to 4,294,967,295.
pub fn states_number(word: &str) -> Option<u32>
    ensures value { result ≡ states_number word.now }
    ensures within { IfSome result (λ n. n ≤ 2 ^ 32 - 1) }
{
    let states = number(1, u32::MAX as u64, word)?;
    Some(states as u32)
}
