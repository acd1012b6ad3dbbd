// Words that say a value, and lists of such words.
ghost use Rattle.std.specs.Prelude.{◌≡◌, ℕ, List, Option, map, IfOk, vec_items};
ghost use Rattle.std.specs.Option.{option_map};
ghost use Rattle.text.specs.List.{parts_of, listed, all_said, PartsJoin, PartsBack};

use std::alloc::{AllocError, Global};

// A value that a word says. Its ghost members leave the value's memory out.
pub trait FromWord: Drop {
    // what can be said
    ghost Said: { Type 0 };

    // what a value says
    ghost said: { Self → Said };

    // what a word says, if anything
    ghost says: { List ℕ → Option Said };

    // The value that a word says, or None where it says none; callers have words of their own for such a word.
    fn from_word(heap: Global, word: &[u8]) -> Result<Option<Self>, AllocError>
        ensures { IfOk result (λ o. option_map said o ≡ says word.now) };
}

// The parts of a word that a separator joins.
pub fn parts(heap: Global, word: &[u8], separator: u8) -> Result<Vec<&[u8]>, AllocError>
    ensures { IfOk result (λ v. map (λ part. part.now) (vec_items v) ≡ parts_of separator word.now) }
{
    word.split(|b| *b == separator).collect(heap)
}

// The values that the parts of a word say, with `-` for none, or None where some part says none.
pub fn parse_list<T: FromWord>(
    heap: Global,
    word: &[u8],
    separator: u8,
) -> Result<Option<Vec<T>>, AllocError>
    ensures { IfOk result (λ o. option_map (λ v. map T.said (vec_items v)) o ≡ all_said T.says (listed separator word.now)) }
{
    let mut values = Vec::new(heap);
    if word == b"-".as_slice() {
        return Ok(Some(values));
    }
    let words = parts(heap, word, separator)?;
    for part in &words {
        let Some(value) = T::from_word(heap, part)? else {
            return Ok(None);
        };
        values.push(value)?;
    }
    Ok(Some(values))
}

// What the parts of a word are.
pub fn parts_stand()
    ensures join { PartsJoin }
    ensures back { PartsBack }
{}
