//! What an untagged plain text is by the core schema's table.
ghost use Rattle.std.specs.Prelude.{◌≡◌};
ghost use Rattle.yaml_core.specs.Form.{table_kind};

use crate::form::judge;

/// The kinds of scalars of the core schema (YAML 1.2.2, 10.3.2).
#[derive(Clone, Copy, Debug, PartialEq, Eq)]
pub enum PlainKind {
    Null,
    Bool,
    Int,
    Float,
    Str,
}

/// The kind of an untagged plain scalar with this text: the first of the table's patterns that
/// matches it whole, else str. Takes no memory.
pub fn plain_kind(text: &str) -> PlainKind
    ensures { result ≡ table_kind text.now }
{
    judge(text).kind()
}
