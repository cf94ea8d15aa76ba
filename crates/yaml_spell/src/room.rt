//! A text that is put into the room that a caller gives for it.
ghost use Rattle.std.specs.Prelude.{◌≤◌, length};
ghost use Rattle.yaml_definitions.specs.grammar.Characters.{c-double-quote};

use crate::quoted::{Piece, cut, is_unescaped};
use crate::sink::Sink;
use crate::stop::Stop;
use yaml_scalar::spell::spelled_char;

/// A buffer for a text, and how many bytes of the text it has so far.
#[derive(Drop)]
pub struct Room<'a> {
    bytes: &'a mut [u8],
    len: usize,
    ghost within: { len ≤ length bytes.now },
}

impl<'a> Room<'a> {
    ghost use Rattle.std.specs.Prelude.{◌≡◌, ◌≤◌, ◌+◌, ◌++◌, ◌∷◌, [], length, take, drop, OnOk, IfErr};
    ghost use Rattle.yaml_scalar.specs.Spelling.{quoted_bytes};
    ghost use Rattle.yaml_spell.specs.Quoted.{piece_text};
    ghost use Rattle.yaml_spell.specs.Stops.{fault_of};
    ghost use Rattle.yaml_spell.specs.Rooms.{room_len, room_bytes, room_name, RoomTakes, RoomMisses};

    /// Nothing of the text yet.
    pub fn new(bytes: &'a mut [u8]) -> Room<'a>
        ensures len { room_len result ≡ 0 }
        ensures bytes { room_bytes result ≡ bytes.old }
        ensures name { room_name result ≡ bytes.entry.ghost_name }
    {
        Room { bytes, len: 0 }
    }

    /// Puts a piece behind the text, for which there is room.
    #[inline(always)]
    fn fill(&mut self, piece: &[u8])
        requires { room_len self.old + length piece.now ≤ length (room_bytes self.old) }
        ensures len { room_len self.new ≡ room_len self.old + length piece.now }
        ensures bytes { room_bytes self.new ≡ take (room_len self.old) (room_bytes self.old) ++ (piece.now ++ drop (room_len self.old + length piece.now) (room_bytes self.old)) }
        ensures name { room_name self.new ≡ room_name self.old }
    {
        let end = self.len + piece.len();
        self.bytes[self.len..end].copy_from_slice(piece);
        self.len = end;
    }

    /// Takes some bytes. A text that is longer than the room is refused as `TextTooLong`.
    #[inline(always)]
    fn add(&mut self, piece: &[u8]) -> Result<(), Stop>
        ensures ok { OnOk result (RoomTakes self.old self.new piece.now) }
        ensures err { IfErr result (λ stop. RoomMisses self.old (fault_of stop) piece.now) }
    {
        if piece.len() > self.bytes.len() - self.len {
            return Err(Stop::TextTooLong);
        }
        self.fill(piece);
        Ok(())
    }

    /// Takes a piece of a content's spelling.
    fn add_piece(&mut self, piece: &Piece<'_>) -> Result<(), Stop>
        ensures ok { OnOk result (RoomTakes self.old self.new (piece_text piece.now)) }
        ensures err { IfErr result (λ stop. RoomMisses self.old (fault_of stop) (piece_text piece.now)) }
    {
        self.add(piece.run.as_bytes())?;
        let Some(c) = piece.next else {
            return Ok(());
        };
        let (bytes, len) = spelled_char(c);
        self.add(&bytes[..len])
    }

    /// Takes bytes between quotes.
    fn add_quoted(&mut self, content: &[u8]) -> Result<(), Stop>
        ensures ok { OnOk result (RoomTakes self.old self.new (c-double-quote ∷ (content.now ++ (c-double-quote ∷ [])))) }
        ensures err { IfErr result (λ stop. RoomMisses self.old (fault_of stop) (c-double-quote ∷ (content.now ++ (c-double-quote ∷ [])))) }
    {
        self.add(b"\"")?;
        self.add(content)?;
        self.add(b"\"")
    }

    /// Takes a content's spelling.
    fn add_spelled(&mut self, content: &str) -> Result<(), Stop>
        ensures ok { OnOk result (RoomTakes self.old self.new (quoted_bytes content.now)) }
        ensures err { IfErr result (λ stop. RoomMisses self.old (fault_of stop) (quoted_bytes content.now)) }
    {
        if is_unescaped(content) {
            return self.add_quoted(content.as_bytes());
        }
        self.add_pieces(content)
    }

    /// The same, piece by piece.
    #[inline(never)]
    fn add_pieces(&mut self, content: &str) -> Result<(), Stop>
        ensures ok { OnOk result (RoomTakes self.old self.new (quoted_bytes content.now)) }
        ensures err { IfErr result (λ stop. RoomMisses self.old (fault_of stop) (quoted_bytes content.now)) }
    {
        self.add(b"\"")?;
        let mut rest = content;
        'spell: while !rest.is_empty() {
            let piece = cut(rest);
            self.add_piece(&piece)?;
            rest = piece.rest;
        }
        self.add(b"\"")
    }
}

impl<'a> Sink<()> for Room<'a> {
    ghost use Rattle.yaml_spell.specs.Rooms.{Holds, Stops};

    ghost holds = { Holds };

    ghost stops = { Stops };

    #[inline(always)]
    fn put(&mut self, _out: &mut (), piece: &str) -> Result<(), Stop> {
        self.add(piece.as_bytes())
    }

    fn put_spelled(&mut self, _out: &mut (), content: &str) -> Result<(), Stop> {
        self.add_spelled(content)
    }

    #[inline(always)]
    fn count(&mut self, _out: &mut (), _len: usize) -> Result<bool, Stop> {
        Ok(false)
    }
}
