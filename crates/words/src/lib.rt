// The words of a record that stand before its value (01, The farm file): the modules and the input names; and which of
// some words a text is. The words of a list are one text: the compiler then compares each by a few instructions.
#![tactic(auto)]

pub mod modules; // the modules by number, and as words
pub mod input_names; // so the input names

ghost use Rattle.std.specs.Prelude.{◌≡◌, ◌+◌, ◌≤◌, length};
ghost use Rattle.base.specs.Part.{same_bytes};
ghost use Rattle.words.specs.Find.{first_from, find_text, modules, input_names, words_of, room_of};

// Which of the words a text is: they have these lengths, with one byte between them.
pub fn find_word(text: &[u8], words: &[u8], lengths: &[u8]) -> Option<usize>
    requires { (length lengths.now ≤ 255) × (room_of lengths.now ≤ length words.now + 1) }
    ensures { result ≡ first_from (same_bytes text.now) 0
        (words_of words.now lengths.now) }
{
    let mut at = 0;
    for (place, len) in lengths.iter().enumerate() {
        let end = at + usize::from(*len);
        if base::same(text, &words[at..end]) {
            return Some(place);
        }
        at = end + 1;
    }
    None
}

// Which module a path is.
pub fn find_module(text: &[u8]) -> Option<usize>
    ensures { result ≡ find_text modules text.now }
{
    find_word(text, &modules::WORDS, &modules::LENGTHS)
}

// Which input name a text is.
pub fn find_input_name(text: &[u8]) -> Option<usize>
    ensures { result ≡ find_text input_names text.now }
{
    find_word(text, &input_names::WORDS, &input_names::LENGTHS)
}
