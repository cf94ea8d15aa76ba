//! Which characters are written as they are.
ghost use Rattle.std.specs.Prelude.{◌≡◌};
ghost use Rattle.yaml_show_scalar.specs.Escapes.{is_unseen};

/// Whether a character is written as an escape: nobody sees it, or some reader takes it for the end of a line.
#[tactic(auto, unfolding(crate::specs::Escapes::is_unseen))]
pub fn is_unseen(c: char) -> bool
    ensures { result ≡ is_unseen c }
{
    matches!(
        c,
        '\0'..='\u{1F}'
            | '\u{7F}'..='\u{A0}'
            | '\u{AD}'
            | '\u{61C}'
            | '\u{1680}'
            | '\u{180E}'
            | '\u{2000}'..='\u{200F}'
            | '\u{2028}'..='\u{202F}'
            | '\u{205F}'..='\u{206F}'
            | '\u{2800}'
            | '\u{3000}'
            | '\u{3164}'
            | '\u{FEFF}'
            | '\u{FFA0}'
            | '\u{FFF0}'..='\u{FFFB}'
            | '\u{E0000}'..='\u{E0FFF}'
    ) || u32::from(c) % 65_536 >= 65_534
}
