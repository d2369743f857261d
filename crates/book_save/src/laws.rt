//! What is saved is read back.

ghost use Rattle.book_save.specs.Loaded.{BookReadsBack};
ghost use Rattle.book_save.specs.Laws.{CellReadsBack, FieldsReadBack, RowsReadBack, SheetReadsBack, TextReadsBack};

/// Rows written one after the other are read back, where each row has a field, and the first field does not begin
/// with the byte order mark, which a reader of a sheet drops.
pub fn law_rows_read_back()
    ensures records { RowsReadBack }
    ensures fields { FieldsReadBack }
{}

/// A saved text is read as that text.
pub fn law_text_reads_back()
    ensures { TextReadsBack }
{}

/// The saved rows of a sheet, one after the other, are read as the sheet's cells over the book's texts, which stay as
/// they are, and no field of them is refused where there is room for the cells.
pub fn law_sheet_reads_back()
    ensures { SheetReadsBack }
{}

/// The field that is read of a cell puts into it what it holds, under the same names and over the same texts, and
/// interns nothing: a formula is read as its tree.
pub fn law_cell_reads_back()
    ensures { CellReadsBack }
{}

/// Where all sheets can be saved, and their bytes together are not more than a loader takes, they are loaded as a book
/// that is the same but for its list of texts and their numbers, and each cell of it shows the same text.
pub fn law_book_reads_back()
    ensures { BookReadsBack }
{}
