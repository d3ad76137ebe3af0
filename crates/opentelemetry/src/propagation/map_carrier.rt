//! A carrier in memory: a finite map from names in ASCII lower case to texts. As HTTP headers have it, names that
//! differ in ASCII case alone are one name.

ghost use Rattle.std.specs.Prelude.{◌≡◌, ◌↔◌, ℕ, List, [], All, IfNone, IfOk, IfSome, IsOk, IsSome, IsTrue, OnErr};
ghost use Rattle.std.specs.Prelude.{None, OnOk, OnSome, map, string_bytes};
ghost use Rattle.std.specs.FinMap as fin;
ghost use Rattle.std.specs.Option.{option_copied, option_map};
ghost use Rattle.std.specs.BTreeMap.{get_by_text};
ghost use Rattle.std.specs.Str.{str_to_ascii_lowercase};
ghost use Rattle.opentelemetry.specs.Carrier.{HasName, SetsText, SameTexts};
ghost use Rattle.opentelemetry.specs.TextMap.{IsLowerName, AllLowerNames, text_map, texts_of, first_text};

use super::{Extractor, Injector};
use std::alloc::{AllocError, Global};
use std::collections::BTreeMap;
use std::marker::Model;

/// Headers by name.
#[derive(Debug, Drop)]
pub struct MapCarrier {
    texts: BTreeMap<String, String>,
    alloc: Global,
}

impl Model for MapCarrier {
    ghost use Rattle.std.specs.Prelude.{ℕ, List};
    ghost use Rattle.std.specs.Ordering.{nat_cmp};
    ghost use Rattle.std.specs.Cmp.Lexicographic.{slice_cmp};
    ghost use Rattle.std.specs.FinMap as fin;
    ghost use Rattle.std.specs.Coded.{coded_list, coded_ℕ};
    ghost use Rattle.opentelemetry.specs.TextMap.{text_map, AllLowerNames};

    ghost Value = { fin.FinMap (slice_cmp nat_cmp) (List ℕ) };

    ghost coded = { fin.code (coded_list coded_ℕ) (coded_list coded_ℕ) };

    ghost view = { λ a. text_map a.texts };

    ghost invariant = { λ a. AllLowerNames a.texts.entries };
}

impl MapCarrier {
    /// A carrier with no texts.
    pub fn new(alloc: Global) -> MapCarrier
        ensures { result ≡ fin.empty }
    {
        MapCarrier {
            texts: BTreeMap::new(alloc),
            alloc,
        }
    }
}

impl Injector for MapCarrier {
    ghost texts = { texts_of };

    /// `AllocError` where there is no memory for a new name, or for a copy of the name in lower case. A text in the
    /// place of one under a name in lower case takes none.
    fn set(&mut self, key: &str, value: String) -> Result<(), AllocError>
        ensures ok { OnOk result (SetsText (texts_of self.old) (texts_of self.new) key.now (string_bytes value)) }
        ensures err { OnErr result (SameTexts (texts_of self.old) (texts_of self.new)) }
        ensures inserted { OnOk result
            (self.new ≡ fin.insert self.old (str_to_ascii_lowercase key.now) (string_bytes value)) }
        ensures unchanged { OnErr result (self.new ≡ self.old) }
        ensures free { IsLowerName key.now → IsSome (texts_of self.old key.now) → IsOk result }
    {
        let Some(value) = put_in_place(&mut self.texts, key, value) else {
            return Ok(());
        };
        let name = key.to_ascii_lowercase(self.alloc)?;
        self.texts.insert(name, value)?;
        Ok(())
    }
}

impl Extractor for MapCarrier {
    ghost reads = { texts_of };

    ghost names = { λ carrier. fin.keys carrier };

    fn get(&self, key: &str) -> Option<&str> {
        if is_lower_name(key) {
            text_at(&self.texts, key)
        } else {
            first_text(&self.texts, key)
        }
    }

    /// In the order of their bytes. A carrier without texts wants no memory.
    fn keys(&self, alloc: Global) -> Result<Vec<&str>, AllocError>
        ensures named { IfOk result (λ keys. map (λ key. key.now) keys.items ≡ fin.keys self.now) }
        ensures read { IfOk result (λ keys. All (λ key. IsSome (texts_of self.now key.now)) keys.items) }
        ensures complete { (name : List ℕ) → IsSome (texts_of self.now name) → HasName name (fin.keys self.now) }
        ensures free { self.now ≡ fin.empty → IsOk result }
    {
        names_of(alloc, &self.texts)
    }
}

impl Clone for MapCarrier {
    ghost use Rattle.std.specs.Prelude.{◌≡◌};

    ghost is_clone = { λ carrier copy. copy ≡ carrier };

    fn clone(&self) -> Result<MapCarrier, AllocError> {
        Ok(MapCarrier {
            texts: copy_of(&self.texts)?,
            alloc: self.alloc,
        })
    }
}

fn copy_of(texts: &BTreeMap<String, String>) -> Result<BTreeMap<String, String>, AllocError>
    ensures same { IfOk result (λ copy. text_map copy ≡ text_map texts.now) }
    ensures lower { AllLowerNames texts.now.entries → IfOk result (λ copy. AllLowerNames copy.entries) }
{
    let copy = texts.clone()?;
    Ok(copy)
}

/// Puts a text in the place of the one under exactly this name. Where there is none it comes back.
fn put_in_place(texts: &mut BTreeMap<String, String>, name: &str, text: String) -> Option<String>
    ensures put { IfNone result
        (text_map texts.new ≡ fin.insert (text_map texts.old) name.now (string_bytes text)) }
    ensures found { AllLowerNames texts.old.entries → IfNone result (IsLowerName name.now) }
    ensures absent { OnSome result (get_by_text texts.old name.now ≡ None) }
    ensures back { IfSome result (λ given. (string_bytes given ≡ string_bytes text)
        × (texts.new.entries ≡ texts.old.entries)) }
    ensures lower { AllLowerNames texts.old.entries → AllLowerNames texts.new.entries }
{
    match texts.get_mut(name) {
        Some(place) => {
            *place = text;
            None
        }
        None => Some(text),
    }
}

/// The names, in the order of their bytes. Room for all is taken at once, and none where there are none.
fn names_of(alloc: Global, texts: &BTreeMap<String, String>) -> Result<Vec<&str>, AllocError>
    ensures named { IfOk result (λ names. map (λ name. name.now) names.items ≡ fin.keys (text_map texts.now)) }
    ensures read { AllLowerNames texts.now.entries → IfOk result (λ names.
        All (λ name. IsSome (texts_of (text_map texts.now) name.now)) names.items) }
    ensures free { fin.keys (text_map texts.now) ≡ [] → IsOk result }
{
    let mut names = Vec::with_capacity(alloc, texts.len())?;
    for name in texts.keys() {
        names.push(name.as_str())?;
    }
    Ok(names)
}

/// Whether no letter of the name is in ASCII upper case.
fn is_lower_name(name: &str) -> bool
    ensures { IsTrue result ↔ IsLowerName name.now }
{
    name.as_bytes()
        .iter()
        .all(|byte| !byte.is_ascii_uppercase())
}

/// The text under exactly this name.
fn text_at<'a>(texts: &'a BTreeMap<String, String>, name: &str) -> Option<&'a str>
    ensures { option_copied result ≡ option_map (λ text. string_bytes text) (get_by_text texts.now name.now) }
{
    match texts.get(name) {
        Some(text) => Some(text.as_str()),
        None => None,
    }
}

/// The text of the first name that differs from this one in ASCII case at most. Takes no memory, as a search for the
/// name in lower case would.
fn first_text<'a>(texts: &'a BTreeMap<String, String>, key: &str) -> Option<&'a str>
    ensures { option_copied result ≡ first_text key.now texts.now.entries }
{
    for (name, text) in texts {
        if name.eq_ignore_ascii_case(key) {
            return Some(text.as_str());
        }
    }
    None
}
