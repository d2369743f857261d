//! The names of the sheets.

ghost use Rattle.std.specs.Prelude.{◌≡◌, ◌==◌, ◌||◌, ℕ, ◌+◌, ◌<◌, ◌≤◌, true, false, List, [], ◌∷◌, ◌++◌, length, map, position, slice_index_or, IfOk, IfErr, IfSome, OnOk, Option, Some, None, string_bytes};
ghost use Rattle.std.specs.List.{list_all};
ghost use Rattle.std.specs.Str.{bytes_eq};
ghost use Rattle.std.specs.Char.{is_ascii_alphanumeric};
ghost use Rattle.cell_values.specs.Interned.{number_of};
ghost use Rattle.cell_values.specs.Names.{file_name, without_csv, sheet_name, is_name_byte, is_good_name, is_new_name, is_plain_name, IsRefusalOf};

use std::alloc::{AllocError, Global};
use std::marker::Model;

/// Why a list of file names gives no sheet names.
#[derive(Clone, Copy, Debug, PartialEq, Eq)]
pub enum NameFault {
    /// The name with this number, counted from 1, is bad or stands twice.
    Bad(usize),
    OutOfMemory,
}

impl From<AllocError> for NameFault {
    ghost use Rattle.cell_values.specs.declared.names.NameFault.{NameFault};

    ghost from_gives = { λ _ fault. fault ≡ NameFault.OutOfMemory };

    fn from(_: AllocError) -> NameFault {
        NameFault::OutOfMemory
    }
}

/// The names of the sheets, numbered from 0. Contracts see the list of their bytes.
#[derive(Drop)]
pub struct SheetNames {
    names: Vec<String>,
}

impl Model for SheetNames {
    ghost use Rattle.std.specs.Prelude.{ℕ, List, map, string_bytes};

    ghost Value = { List (List ℕ) };

    ghost use Rattle.cell_values.specs.Names.{AreSheetNames};

    ghost view = { λ s. map string_bytes s.names.items };

    ghost invariant = { λ s. AreSheetNames (map string_bytes s.names.items) };
}

impl SheetNames {
    ghost use Rattle.cell_values.specs.Names.{bad_name, IsFaultOf, AreSheetNames, prefix_text};

    /// The names of the files' sheets: of each what stands behind the last `/`, without one `.csv` at the end.
    /// `Bad` tells the first that is empty, longer than 64 bytes, holds `'`, `!` or a control character, or
    /// equals an earlier one.
    pub fn new(alloc: Global, files: &[String]) -> Result<SheetNames, NameFault>
        requires some { 1 ≤ length files.now }
        requires few { length files.now ≤ 16 }
        ensures names { IfOk result (λ names. names ≡ map (λ file. sheet_name (string_bytes file)) files.now) }
        ensures good { OnOk result (bad_name (map (λ file. sheet_name (string_bytes file)) files.now) ≡ None) }
        ensures sound { IfOk result AreSheetNames }
        ensures bad { IfErr result (IsFaultOf (map (λ file. sheet_name (string_bytes file)) files.now)) }
    {
        let mut names = Vec::new(alloc);
        for file in files {
            add_name(alloc, &mut names, read_name(file.as_str()))?;
        }
        Ok(SheetNames { names })
    }

    /// How many sheets there are: 1 to 16.
    pub fn count(&self) -> usize
        ensures count { result ≡ length self.now }
        ensures sound { AreSheetNames self.now }
    {
        self.names.len()
    }

    /// The number of the sheet with this name.
    #[tactic(auto, using(crate::proofs::Numbering::number_of_mapped, crate::proofs::Numbering::number_is_there))]
    pub fn find(&self, name: &str) -> Option<u8>
        ensures number { result ≡ number_of self.now name.now }
        ensures within { IfSome result (λ sheet. sheet < length self.now) }
        ensures sound { AreSheetNames self.now }
    {
        match position_of(&self.names, name) {
            Some(number) => Some(number as u8),
            None => None,
        }
    }

    /// The name and `!`, with the name in single quotes where it is not a letter or `_` and then letters,
    /// digits and `_`.
    pub fn prefix(&self, alloc: Global, sheet: u8) -> Result<String, AllocError>
        requires { sheet < length self.now }
        ensures { IfOk result (λ text. string_bytes text ≡ prefix_text (slice_index_or self.now sheet [])) }
    {
        let name = self.names[usize::from(sheet)].as_str();
        if is_plain_name(name) {
            format!(in alloc; "{name}!")
        } else {
            format!(in alloc; "'{name}'!")
        }
    }
}

/// The name of a file's sheet.
#[tactic(auto, unfolding(crate::specs::Names::sheet_name))]
fn read_name(path: &str) -> &str
    ensures { result.now ≡ sheet_name path.now }
{
    strip_csv(strip_folders(path))
}

/// What stands behind the last `/`.
#[tactic(auto, using(crate::proofs::FileNames::behind_last_slash, crate::proofs::FileNames::without_slash))]
fn strip_folders(path: &str) -> &str
    ensures { result.now ≡ file_name path.now }
{
    match path.rsplit_once('/') {
        Some((_, name)) => name,
        None => path,
    }
}

/// The name without one `.csv` at the end.
#[tactic(auto, using(crate::proofs::FileNames::before_csv, crate::proofs::FileNames::no_csv))]
fn strip_csv(name: &str) -> &str
    ensures { result.now ≡ without_csv name.now }
{
    match name.strip_suffix(".csv") {
        Some(stem) => stem,
        None => name,
    }
}

/// Adds a name, unless it is bad or stands there already.
fn add_name(alloc: Global, names: &mut Vec<String>, name: &str) -> Result<(), NameFault>
    ensures ok { OnOk result (map string_bytes names.new.items ≡ map string_bytes names.old.items ++ name.now ∷ []) }
    ensures new { OnOk result (is_new_name (map string_bytes names.old.items) name.now ≡ true) }
    ensures err { IfErr result (IsRefusalOf (map string_bytes names.old.items) name.now) }
{
    if !is_new(names, name) {
        return Err(NameFault::Bad(names.len() + 1));
    }
    let kept = String::from_str(alloc, name)?;
    if names.push(kept).is_err() {
        return Err(NameFault::OutOfMemory);
    }
    Ok(())
}

/// The name is good and equals none of the names.
#[tactic(auto, using(crate::proofs::Naming::new_if_good, crate::proofs::Naming::bad_is_not_new))]
fn is_new(names: &[String], name: &str) -> bool
    ensures { result ≡ is_new_name (map string_bytes names.now) name.now }
{
    is_good(name) && position_of(names, name).is_none()
}

/// The number of the first of the names that equals this one.
fn position_of(names: &[String], name: &str) -> Option<usize>
    ensures { result ≡ position (λ known. bytes_eq name.now (string_bytes known)) names.now }
{
    names.iter().position(|known| name == known.as_str())
}

/// The name is not empty, no longer than 64 bytes, and has only bytes that may stand in a name.
#[tactic(auto, unfolding(crate::specs::Names::is_good_name))]
fn is_good(name: &str) -> bool
    ensures { result ≡ is_good_name name.now }
{
    !name.is_empty() && name.len() <= 64 && all_may_stand(name.as_bytes())
}

/// Each byte may stand in a name.
fn all_may_stand(bytes: &[u8]) -> bool
    ensures { result ≡ list_all is_name_byte bytes.now }
{
    bytes.iter().all(|byte| may_stand(*byte))
}

/// The byte is no `'`, no `!` and no control character.
fn may_stand(byte: u8) -> bool
    ensures { result ≡ is_name_byte byte }
{
    byte != b'\'' && byte != b'!' && !byte.is_ascii_control()
}

/// Whether a name is a letter or `_` and then letters, digits and `_`: such a name needs no quotes before a `!`.
#[tactic(auto, unfolding(crate::specs::Names::is_plain_name))]
pub fn is_plain_name(name: &str) -> bool
    ensures { result ≡ is_plain_name name.now }
{
    match name.as_bytes() {
        [] => false,
        [first, rest @ ..] => (first.is_ascii_alphabetic() || *first == b'_') && all_plain(rest),
    }
}

/// Each byte is a letter, a digit or `_`.
fn all_plain(bytes: &[u8]) -> bool
    ensures { result ≡ list_all (λ byte. is_ascii_alphanumeric byte || byte == 95) bytes.now }
{
    bytes
        .iter()
        .all(|byte| byte.is_ascii_alphanumeric() || *byte == b'_')
}
