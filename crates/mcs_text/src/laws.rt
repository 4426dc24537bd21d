//! Laws of lines and texts that other crates rely on.
ghost use Rattle.mcs_text.specs.Lines.{GivenAreLines, TextsAreOfMoments};
ghost use Rattle.mcs_text.specs.Parts.{LinesHoldRows, TextGrows};

/// Law of lines as a sink: after rows were given, their texts follow the earlier ones, in the order
/// of the rows.
pub fn given_rows_are_lines()
    ensures { GivenAreLines }
{}

/// Law of lines: if rows were given in order of time to empty lines, the text at each mark is that
/// of the rows of its time. This allows texts of several cores to be merged by their marks.
pub fn texts_are_of_moments()
    ensures { TextsAreOfMoments }
{}

/// Law of lines as a part: if rows were given in order of time to empty lines, these hold the rows
/// for each text of their system.
pub fn lines_hold_their_rows()
    ensures { LinesHoldRows }
{}

/// Law of a text: after it was given rows, one by one or by parts that hold them, their lines
/// follow the earlier ones, in the order of the rows.
pub fn given_rows_are_text()
    ensures { TextGrows }
{}
