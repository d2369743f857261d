//! Rows as CSV.

ghost use Rattle.std.specs.Prelude.{◌≡◌, ◌<◌, IfOk, length, map, string_bytes};
ghost use Rattle.sheet_csv.specs.Row.{row_text};

use csv::WriterBuilder;
use std::alloc::{AllocError, Global};

/// Writes a row: the fields with commas between them, and a line feed. A field with a comma, a double quote or a
/// line's end in it stands in double quotes, with its own doubled. A row of one empty field is `""`.
pub fn write_row(alloc: Global, fields: &[String]) -> Result<Vec<u8>, AllocError>
    requires { 0 < length fields.now }

    // Over bytes in memory the writer of CSV fails only for want of memory. A fault of another kind, which its
    // types can name, would be answered as that.
    ensures { IfOk result (λ row. row.items ≡ row_text (map string_bytes fields.now)) }
{
    let fields: Vec<&[u8]> = fields.iter().map(|field| field.as_bytes()).collect(alloc)?;
    let mut writer = WriterBuilder::new().from_writer(Vec::new(alloc));
    if writer.write_fields(&fields).is_err() {
        return Err(AllocError);
    }
    writer.into_inner().map_err(|_| AllocError)
}
