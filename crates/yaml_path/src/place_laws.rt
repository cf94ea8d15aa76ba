//! Laws of lines and columns. Each function has an empty body, and its contract is a law.
ghost use Rattle.yaml_path.specs.PlaceLaws.{BreaksAreBreaks, ColumnsCountCharacters};

/// A line ends where a line break of the grammar ends (YAML 1.2.2, 5.4).
pub fn breaks_are_breaks()
    ensures { BreaksAreBreaks }
{}

/// A column counts characters.
pub fn columns_count_characters()
    ensures { ColumnsCountCharacters }
{}
