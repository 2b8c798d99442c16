//! What is true of the result of a run. The functions do nothing: their contracts are the laws.
ghost use Rattle.xs_result_laws.specs.RunLaws.{RunsAreNamed, RunsReadBack, SheetsAreNamed};

/// The names, namespace nodes and aliases of a compiled stylesheet can be written, since those of
/// its modules are as those of documents.
pub fn sheets_are_named()
    ensures { SheetsAreNamed }
{
    crate::results::documents_are_well();
}

/// The names of all that a run begins with can be written.
pub fn runs_are_named()
    ensures { RunsAreNamed }
{
    sheets_are_named();
    crate::results::documents_are_well();
    crate::puts::stripped_are_well();
}

/// The lines of what a run puts that comes to its end are those of a document with the same
/// elements, attributes, texts, comments and instructions.
pub fn runs_read_back()
    ensures { RunsReadBack }
{
    runs_are_named();
    crate::puts::runs_put_results();
    crate::results::results_read_back();
}
