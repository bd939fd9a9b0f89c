//! Forms of lines.

ghost use Rattle.std.specs.Prelude.{◌≡◌};
ghost use Rattle.um_question.specs.Forms.{IsFirstWord, fits, is_word};

/// The first word of a line, what stands behind the space after it, and whether such a space follows.
pub(crate) fn first_word(line: &[u8]) -> (&[u8], &[u8], bool)
    ensures { IsFirstWord line.now result.0.now result.1.now result.2 }
{
    for (i, byte) in line.iter().enumerate() {
        if *byte == b'\n' {
            return (&line[..i], &[], false);
        }
        if *byte == b' ' {
            return (&line[..i], line.split_at(i + 1).1, true);
        }
    }
    (line, &[], false)
}

/// Whether a word of a form stands for a word.
fn is_word(form: &[u8], word: &[u8]) -> bool
    ensures { result ≡ is_word form.now word.now }
{
    form == "*".as_bytes() || form == word
}

/// Whether a line is of a form. Both are words with single spaces between them, and end at a newline. In a form, `*` stands for any word.
pub fn fits(form: &[u8], line: &[u8]) -> bool
    ensures { result ≡ fits form.now line.now }
{
    let mut forms = form;
    let mut rest = line;
    loop {
        let (first, forms_behind, more_forms) = first_word(forms);
        let (word, behind, more) = first_word(rest);
        if !is_word(first, word) {
            return false;
        }
        if !more {
            return !more_forms;
        }
        if !more_forms {
            return false;
        }
        forms = forms_behind;
        rest = behind;
    }
}
