//! The name of an attribute.

ghost use Rattle.std.specs.Prelude.{◌≡◌, ◌↔◌, string_bytes, IfOk, IsOk, IsTrue};
ghost use Rattle.std.specs.Cow.{cow_str_bytes, IsBorrowedStr};

use std::alloc::{AllocError, Global};
use std::borrow::CowStr;
use std::cmp::Ordering;
use std::hash::{Hash, Hasher};
use std::marker::Model;

/// The name of an attribute: a text, its own or a constant. Equality, order and hash are of the text alone.
#[derive(Debug, Drop)]
pub struct Key(CowStr<'static, Global>);

impl Model for Key {
    ghost use Rattle.std.specs.Prelude.{ℕ, List};
    ghost use Rattle.std.specs.Cow.{cow_str_bytes};

    ghost Value = { List ℕ };

    ghost view = { λ key. cow_str_bytes key.0 };
}

impl Key {
    /// A key made while the program runs. A constant one takes `from_static_str`, which copies nothing.
    pub fn new(key: String) -> Key
        ensures { result ≡ string_bytes key }
    {
        Key(CowStr::Owned(key))
    }

    /// A constant as a key. Neither it nor a clone of it takes memory.
    pub const fn from_static_str(key: &'static str) -> Key
        ensures { result ≡ key.now }
    {
        Key(CowStr::Borrowed(key))
    }

    /// The text of the key.
    pub fn as_str(&self) -> &str
        ensures { result.now ≡ self.now }
    {
        self.0.as_str()
    }
}

/// A copy of a key's text. A constant stays one, which takes no memory.
fn copy_of(text: &CowStr<'static, Global>) -> Result<CowStr<'static, Global>, AllocError>
    ensures ok { IfOk result (λ copy. cow_str_bytes copy ≡ cow_str_bytes text.now) }
    ensures free { IsBorrowedStr text.now → IsOk result }
    ensures stays_free { IfOk result (λ copy. IsBorrowedStr text.now → IsBorrowedStr copy) }
{
    match text {
        CowStr::Borrowed(constant) => Ok(CowStr::Borrowed(*constant)),
        CowStr::Owned(owned) => Ok(CowStr::Owned(owned.clone()?)),
    }
}

impl Clone for Key {
    ghost use Rattle.std.specs.Prelude.{◌≡◌};

    ghost is_clone = { λ key copy. copy ≡ key };

    fn clone(&self) -> Result<Key, AllocError> {
        Ok(Key(copy_of(&self.0)?))
    }
}

impl PartialEq for Key {
    ghost use Rattle.std.specs.Prelude.{◌≡◌, ◌↔◌, IsTrue};
    ghost use Rattle.opentelemetry.specs.Same.{same_text, same_text_decides, partial_equivalence_from_decides};

    ghost eq = { same_text };

    ghost laws = { partial_equivalence_from_decides same_text same_text_decides };

    fn eq(&self, other: &Key) -> bool
        ensures value { result ≡ same_text self.now other.now }
        ensures same { IsTrue result ↔ (self.now ≡ other.now) }
    {
        self.0 == other.0
    }
}

impl Eq for Key {
    ghost use Rattle.opentelemetry.specs.Same.{same_text, same_text_decides, equivalence_from_decides};

    ghost laws = { equivalence_from_decides same_text same_text_decides };
}

impl Ord for Key {
    ghost use Rattle.std.specs.Prelude.{refl};
    ghost use Rattle.std.specs.Ordering.{nat_cmp};
    ghost use Rattle.std.specs.Cmp.Lexicographic.{slice_cmp, texts_ties};
    ghost use Rattle.std.proofs.lemmas.Cmp.{nat_list_cmp_total};

    ghost cmp = { slice_cmp nat_cmp };

    ghost total = { nat_list_cmp_total };

    ghost matches_partial_cmp = { λ x y. refl };

    ghost matches_eq = { texts_ties };

    fn cmp(&self, other: &Key) -> Ordering {
        self.0.cmp(&other.0)
    }
}

impl PartialOrd for Key {
    ghost use Rattle.std.specs.Prelude.{Some};
    ghost use Rattle.std.specs.Ordering.{nat_cmp};
    ghost use Rattle.std.specs.Cmp.Lexicographic.{slice_cmp, texts_po};

    ghost partial_cmp = { λ x y. Some (slice_cmp nat_cmp x y) };

    ghost laws = { texts_po };

    fn partial_cmp(&self, other: &Key) -> Option<Ordering> {
        Some(self.cmp(other))
    }
}

impl Hash for Key {
    ghost use Rattle.std.proofs.Common.{ap};
    ghost use Rattle.std.specs.Hash as fed;
    ghost use Rattle.opentelemetry.specs.Same.{same_text_decides};

    ghost hash_input = { fed.str };

    ghost respects_eq = { λ x y same. ap fed.str ((same_text_decides x y).0 same) };

    fn hash<H: Hasher>(&self, state: &mut H) {
        self.0.hash(state);
    }
}
