// The words of a call.
ghost use Rattle.std.specs.Prelude.{◌≡◌, Some, None, map, string_bytes, IfOk, OnOk, IsErrOf};
ghost use Rattle.rtdvs_c.specs.WordList.{with_word, words_of};

use std::alloc::Global;

/// Why words are not read.
#[derive(Clone, Copy, Debug, PartialEq, Eq)]
pub(crate) enum WordsFault {
    /// A word is not UTF-8.
    NotUtf8,
    /// Memory ran out.
    NoMemory,
}

// Adds a word, if it is UTF-8.
fn push_word(alloc: Global, words: &mut Vec<String>, word: &[u8]) -> Result<(), WordsFault>
    ensures ok { OnOk result
        (with_word (map string_bytes words.old.items) word.now ≡ Some (map string_bytes words.new.items)) }
    ensures not_utf8 { IsErrOf result WordsFault.NotUtf8
        → with_word (map string_bytes words.old.items) word.now ≡ None }
{
    let text = match std::str::from_utf8(word) {
        Ok(text) => text,
        Err(_) => return Err(WordsFault::NotUtf8),
    };
    let owned = match String::from_str(alloc, text) {
        Ok(owned) => owned,
        Err(_) => return Err(WordsFault::NoMemory),
    };
    if words.push(owned).is_err() {
        return Err(WordsFault::NoMemory);
    }
    Ok(())
}

/// The words that the bytes are: a zero byte ends each, and the end of the bytes may end the last.
pub(crate) fn read_words(alloc: Global, bytes: &[u8]) -> Result<Vec<String>, WordsFault>
    ensures words { IfOk result (λ words. words_of bytes.now ≡ Some (map string_bytes words.items)) }
    ensures not_utf8 { IsErrOf result WordsFault.NotUtf8 → words_of bytes.now ≡ None }
{
    let mut words = Vec::new(alloc);
    let mut begun = Vec::new(alloc);
    for byte in bytes {
        if *byte == 0 {
            push_word(alloc, &mut words, &begun)?;
            begun.clear();
        } else if begun.push(*byte).is_err() {
            return Err(WordsFault::NoMemory);
        }
    }
    if !begun.is_empty() {
        push_word(alloc, &mut words, &begun)?;
    }
    Ok(words)
}
