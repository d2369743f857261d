//! The rows of a saved sheet.

ghost use Rattle.std.specs.Prelude.{◌≡◌, map};

use std::marker::Model;

/// The rows of a saved sheet, each as its line of CSV. Contracts see the list of their bytes.
#[derive(Drop)]
pub struct SavedRows {
    rows: Vec<Vec<u8>>,
}

impl Model for SavedRows {
    ghost use Rattle.std.specs.Prelude.{ℕ, List, map};

    ghost Value = { List (List ℕ) };

    ghost view = { λ s. map (λ row. row.items) s.rows.items };
}

impl SavedRows {
    /// These rows.
    pub(crate) fn new(rows: Vec<Vec<u8>>) -> SavedRows
        ensures { result ≡ map (λ row. row.items) rows.items }
    {
        SavedRows { rows }
    }

    /// The rows in order, each with the line feed at its end.
    pub fn rows(&self) -> &[Vec<u8>]
        ensures { map (λ row. row.items) result.now ≡ self.now }
    {
        &self.rows
    }
}
