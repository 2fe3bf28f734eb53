//! Consequences of the definitions alone.
ghost use Rattle.sheet_cli.specs.Answers.{EachLineHasOneAnswer, LinesHaveOneAnswer};

/// A line has one answer and leads to one state.
pub fn line_has_one_answer()
    ensures { EachLineHasOneAnswer }
{}

/// Lines with the same refusals have one answer and lead to one state.
pub fn lines_have_one_answer()
    ensures { LinesHaveOneAnswer }
{}
