// A document and what its keys hold.
ghost use Rattle.std.specs.Prelude.{◌≡◌, ◌≤◌, ◌<◌, ◌^◌, Some, None, Ok, IfOk, IsErrOf, not, find, map, option_map, string_bytes};
ghost use Rattle.std.specs.List.{list_any};
ghost use Rattle.std.specs.Str.{bytes_eq};
ghost use Rattle.std.specs.Option.{option_copied};
ghost use Rattle.std.specs.Result.{result_map_both};
ghost use Rattle.std.specs.BTreeMap.{keys, IsOrdered};
ghost use Rattle.std.specs.String.{string_cmp};
ghost use Rattle.dvs_base.specs.Text.{short_of};
ghost use Rattle.toml.specs.Data.{get_member, as_integer, as_str};
ghost use Rattle.toml.specs.Errors.{IsMemory};
ghost use Rattle.toml.specs.View.{view, table_view};
ghost use Rattle.dvs_base.specs.Settings.{document_of, is_known, unknown_key, number_from, number_at, number_or_zero, text_from, text_at};

use crate::Short;
use std::alloc::Global;
use toml::de::Error;
use toml::{Table, Value};

/// Why bytes give no document.
#[derive(Clone, Copy, Debug, PartialEq, Eq)]
pub enum DocumentFault {
    /// The bytes are not a TOML document.
    NotToml,
    /// Memory ran out, which says nothing of the bytes.
    NoMemory,
}

/// Why a key gives no value: it is absent, its value is of another kind, or its number is outside the limits.
#[derive(Clone, Copy, Debug, PartialEq, Eq)]
pub enum MemberFault {
    /// The table lacks the key.
    Missing,
    /// The value is of another kind.
    Kind,
    /// The number is outside its limits.
    Range,
}

// Why the bytes give no document, by the reader's error.
fn document_fault(why: Error) -> DocumentFault
    ensures { result ≡ DocumentFault.NotToml → IsMemory why → ⊥ }
{
    if why.is_memory() {
        DocumentFault::NoMemory
    } else {
        DocumentFault::NotToml
    }
}

/// The document of the bytes, as an untyped table. Bytes that are not UTF-8 are not TOML.
pub fn read_document(alloc: Global, bytes: &[u8]) -> Result<Table, DocumentFault>
    ensures document { IfOk result (λ t. document_of bytes.now ≡ Some (table_view t)) }
    ensures refused { IsErrOf result DocumentFault.NotToml → document_of bytes.now ≡ None }
{
    toml::table_from_slice(alloc, bytes).map_err(document_fault)
}

fn is_among(known: &[&str], key: &str) -> bool
    ensures { result ≡ list_any (λ k. bytes_eq k.now key.now) known.now }
{
    known.iter().any(|k| *k == key)
}

fn is_known(known: &[&str], key: &str) -> bool
    ensures { result ≡ is_known (map (λ k. k.now) known.now) key.now }
{
    is_among(known, key)
}

fn first_unknown<'a>(known: &[&str], table: &'a Table) -> Option<&'a String>
    ensures found { option_copied result
        ≡ find (λ k. not (is_known (map (λ k. k.now) known.now) (string_bytes k))) (keys table.now) }
    ensures ordered { IsOrdered string_cmp table.now }
{
    table.keys().find(|k| !is_known(known, k.as_str()))
}

/// The least key of the table, in order of bytes, that is not `known`.
pub fn unknown_key(table: &Table, known: &[&str]) -> Option<Short>
    ensures { result ≡ option_map short_of (unknown_key (map (λ k. k.now) known.now) (table_view table.now)) }
{
    let key = first_unknown(known, table)?;
    Some(Short::of(key.as_bytes()))
}

/// The value at a key.
pub fn member_at<'a>(table: &'a Table, key: &str) -> Option<&'a Value>
    ensures { option_map (λ v. view v.now) result ≡ get_member key.now (table_view table.now) }
{
    table.get(key)
}

fn number_of(value: &Value, low: u64, high: u64) -> Result<u64, MemberFault>
    ensures meaning { result ≡ number_from low high (as_integer (view value.now)) }
    ensures within { IfOk result (λ n. (low ≤ n) × (n ≤ high)) }
{
    let n = value.as_integer().ok_or(MemberFault::Kind)?;
    if n >= 0 && n as u64 >= low && n as u64 <= high {
        Ok(n as u64)
    } else {
        Err(MemberFault::Range)
    }
}

/// The whole number at a key, if it is within `low` and `high`.
pub fn number_at(table: &Table, key: &str, low: u64, high: u64) -> Result<u64, MemberFault>
    ensures meaning { result ≡ number_at low high (get_member key.now (table_view table.now)) }
    ensures within { IfOk result (λ n. (low ≤ n) × (n ≤ high)) }
{
    let value = member_at(table, key).ok_or(MemberFault::Missing)?;
    number_of(value, low, high)
}

/// The whole number at a key that the table may lack, if it is at most `high`; 0 if the key is absent.
pub fn number_or_zero(table: &Table, key: &str, high: u64) -> Result<u64, MemberFault>
    ensures meaning { result ≡ number_or_zero high (get_member key.now (table_view table.now)) }
    ensures within { IfOk result (λ n. n ≤ high) }
{
    match member_at(table, key) {
        Some(value) => number_of(value, 0, high),
        None => Ok(0),
    }
}

fn text_of(value: &Value) -> Result<&str, MemberFault>
    ensures { text_from (as_str (view value.now)) ≡ result_map_both (λ t. t.now) (λ e. e) result }
{
    value.as_str().ok_or(MemberFault::Kind)
}

/// The text at a key.
pub fn text_at<'a>(table: &'a Table, key: &str) -> Result<&'a str, MemberFault>
    ensures { text_at (get_member key.now (table_view table.now)) ≡ result_map_both (λ t. t.now) (λ e. e) result }
{
    let value = member_at(table, key).ok_or(MemberFault::Missing)?;
    text_of(value)
}
