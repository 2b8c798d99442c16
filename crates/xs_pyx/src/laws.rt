//! What is true of lines. The functions do nothing: their contracts are the laws.

ghost use Rattle.xs_pyx.specs.LineLaws.{BytesAreCut, RowsAreRead, DocumentsAreRead};

/// The rows of bytes by the relation are those that the function `rows_of` gives, and no others.
pub fn bytes_are_cut()
    ensures { BytesAreCut }
{}

/// What a row says by the relation, a line or a fault, is what the function `reading` gives of it,
/// and nothing else.
pub fn rows_are_read()
    ensures { RowsAreRead }
{}

/// Bytes are by the relation exactly the lines that their rows say one by one.
pub fn documents_are_read()
    ensures { DocumentsAreRead }
{}
