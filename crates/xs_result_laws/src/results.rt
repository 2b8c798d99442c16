//! What is true of a result that is written and read. The functions do nothing: their contracts
//! are the laws.
ghost use Rattle.xs_result_laws.specs.ResultLaws.{DocumentsAreWell, ResultsReadBack};

/// The lines of a result are those of a document with the same elements, attributes, texts,
/// comments and instructions, by themselves or inside one element more.
pub fn results_read_back()
    ensures { ResultsReadBack }
{
    xs_build::laws::lines_go_by_step();
    xs_pyx::laws::documents_are_read();
    xs_result_lines::laws::names_resolve();
    xs_result_lines::laws::lines_go_on();
}

/// What is copied of documents can be written: their nodes have names as `xs_making` asks.
pub fn documents_are_well()
    ensures { DocumentsAreWell }
{}
