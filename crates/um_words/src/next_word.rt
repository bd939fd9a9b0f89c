//! How a step is made of what is asked.

/// The word that a step leaves. Where the word takes no such step, the function around it has nothing to answer.
macro_rules! next_word {
    ($act:expr, $word:expr) => {{
        if $word.number >= LAST || !$act.is_taken($word) {
            return None;
        }
        let mut next = *$word;
        $act.take(&mut next);
        next.number += 1;
        next
    }};
}

pub(crate) use next_word;
