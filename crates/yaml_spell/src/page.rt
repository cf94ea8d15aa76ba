//! A text that is written page by page.
ghost use Rattle.std.specs.Prelude.{◌≤◌, OnOk, IfErr};
ghost use Rattle.yaml_definitions.specs.grammar.Characters.{c-double-quote};
ghost use Rattle.yaml_spell.specs.Writers.{Sent, CutOff};

use crate::few::copy;
use crate::quoted::{Piece, cut, is_unescaped};
use crate::sink::Sink;
use crate::stop::Stop;
use std::io::Write;
use yaml_scalar::spell::spelled_char;
use yaml_text::counted::Counted;
use yaml_text::fault::Fault;

/// How many bytes are written at most in one call.
const PAGE: usize = 4096;

/// The last part of a text, which is still to be written: at most a page. It takes no memory but its
/// own.
#[derive(Drop)]
pub struct Page {
    bytes: [u8; PAGE],
    len: usize,
    ghost within: { len ≤ 4096 },
}

/// Writes a piece whole. Any error of the writer, and a write that takes no byte, is `WriteFault`;
/// the writer then has a beginning of the piece.
pub fn write_whole<W: Write>(out: &mut Counted<W>, piece: &[u8]) -> Result<(), Fault>
    ensures ok { OnOk result (Sent W.contents out.old out.new piece.now) }
    ensures err { IfErr result (CutOff W.contents out.old out.new piece.now) }
{
    let mut at = 0;
    'write: while at < piece.len() {
        match out.write(&piece[at..]) {
            Ok(0) | Err(_) => return Err(Fault::WriteFault),
            Ok(took) => at += took,
        }
    }
    Ok(())
}

impl Page {
    ghost use Rattle.std.specs.Prelude.{◌≡◌, ◌<◌, ◌≤◌, ◌+◌, ◌++◌, ◌∷◌, length, [], OnOk, IfErr};
    ghost use Rattle.yaml_scalar.specs.Spelling.{quoted_bytes};
    ghost use Rattle.yaml_spell.specs.Stops.{fault_of};
    ghost use Rattle.yaml_spell.specs.Pieces.{TakesPiece, Misses};
    ghost use Rattle.yaml_spell.specs.Quoted.{piece_text};
    ghost use Rattle.yaml_spell.specs.Writers.{Sent, CutOff};
    ghost use Rattle.yaml_spell.specs.Pages.{page_bytes, page_len, PageHolds, PageStops};

    /// Nothing yet.
    pub fn new() -> Page
        ensures { page_len result ≡ 0 }
    {
        Page {
            bytes: [0; PAGE],
            len: 0,
        }
    }

    /// Writes what is still to be written. Fails as the writer does (23).
    pub fn send<W: Write>(&mut self, out: &mut Counted<W>) -> Result<(), Fault>
        ensures ok { OnOk result (Sent W.contents out.old out.new (page_bytes self.old)) }
        ensures none { OnOk result (page_len self.new ≡ 0) }
        ensures err { IfErr result (CutOff W.contents out.old out.new (page_bytes self.old)) }
    {
        write_whole(out, &self.bytes[..self.len])?;
        self.len = 0;
        Ok(())
    }

    /// Writes the page if it is full.
    fn make_room<W: Write>(&mut self, out: &mut Counted<W>) -> Result<(), Stop>
        ensures ok { OnOk result (TakesPiece (PageHolds W.contents) self.old out.old self.new out.new []) }
        ensures room { OnOk result (page_len self.new < 4096) }
        ensures err { IfErr result (λ stop. Misses (PageHolds W.contents) (PageStops W.contents) self.old out.old out.new (fault_of stop) []) }
    {
        if self.len < PAGE {
            return Ok(());
        }
        match self.send(out) {
            Ok(()) => Ok(()),
            Err(_) => Err(Stop::WriteFault),
        }
    }

    /// Puts a piece into the page, which has room for it.
    #[inline(always)]
    fn fill(&mut self, piece: &[u8])
        requires { page_len self.old + length piece.now ≤ 4096 }
        ensures { page_bytes self.new ≡ page_bytes self.old ++ piece.now }
    {
        let end = self.len + piece.len();
        copy(&mut self.bytes[self.len..end], piece);
        self.len = end;
    }

    /// Puts bytes between quotes into the page, which has room for them.
    #[inline(always)]
    fn fill_quoted(&mut self, content: &[u8])
        requires { page_len self.old + length content.now + 2 ≤ 4096 }
        ensures { page_bytes self.new ≡ page_bytes self.old ++ (c-double-quote ∷ (content.now ++ (c-double-quote ∷ []))) }
    {
        let start = self.len + 1;
        let end = start + content.len();
        self.bytes[self.len] = b'"';
        copy(&mut self.bytes[start..end], content);
        self.bytes[end] = b'"';
        self.len = end + 1;
    }

    /// Takes some bytes. Mostly they are few, and the page has room for them.
    #[inline(always)]
    fn add<W: Write>(&mut self, out: &mut Counted<W>, piece: &[u8]) -> Result<(), Stop>
        ensures ok { OnOk result (TakesPiece (PageHolds W.contents) self.old out.old self.new out.new piece.now) }
        ensures err { IfErr result (λ stop. Misses (PageHolds W.contents) (PageStops W.contents) self.old out.old out.new (fault_of stop) piece.now) }
    {
        if piece.len() > PAGE - self.len {
            return self.add_paged(out, piece);
        }
        self.fill(piece);
        Ok(())
    }

    /// The same, and each page that is full is written.
    #[inline(never)]
    fn add_paged<W: Write>(&mut self, out: &mut Counted<W>, piece: &[u8]) -> Result<(), Stop>
        ensures ok { OnOk result (TakesPiece (PageHolds W.contents) self.old out.old self.new out.new piece.now) }
        ensures err { IfErr result (λ stop. Misses (PageHolds W.contents) (PageStops W.contents) self.old out.old out.new (fault_of stop) piece.now) }
    {
        let mut at = 0;
        'add: while at < piece.len() {
            self.make_room(out)?;
            let took = (piece.len() - at).min(PAGE - self.len);
            self.fill(&piece[at..at + took]);
            at += took;
        }
        Ok(())
    }

    /// Takes a piece of a content's spelling.
    fn add_piece<W: Write>(&mut self, out: &mut Counted<W>, piece: &Piece<'_>) -> Result<(), Stop>
        ensures ok { OnOk result (TakesPiece (PageHolds W.contents) self.old out.old self.new out.new (piece_text piece.now)) }
        ensures err { IfErr result (λ stop. Misses (PageHolds W.contents) (PageStops W.contents) self.old out.old out.new (fault_of stop) (piece_text piece.now)) }
    {
        self.add(out, piece.run.as_bytes())?;
        let Some(c) = piece.next else {
            return Ok(());
        };
        let (bytes, len) = spelled_char(c);
        self.add(out, &bytes[..len])
    }

    /// Takes bytes between quotes. Mostly the page has room for all of them.
    #[inline(always)]
    fn add_quoted<W: Write>(&mut self, out: &mut Counted<W>, content: &[u8]) -> Result<(), Stop>
        ensures ok { OnOk result (TakesPiece (PageHolds W.contents) self.old out.old self.new out.new (c-double-quote ∷ (content.now ++ (c-double-quote ∷ [])))) }
        ensures err { IfErr result (λ stop. Misses (PageHolds W.contents) (PageStops W.contents) self.old out.old out.new (fault_of stop) (c-double-quote ∷ (content.now ++ (c-double-quote ∷ [])))) }
    {
        if content.len() + 2 > PAGE - self.len {
            return self.add_between(out, content);
        }
        self.fill_quoted(content);
        Ok(())
    }

    /// The same, the quotes and the bytes one after the other.
    #[inline(never)]
    fn add_between<W: Write>(&mut self, out: &mut Counted<W>, content: &[u8]) -> Result<(), Stop>
        ensures ok { OnOk result (TakesPiece (PageHolds W.contents) self.old out.old self.new out.new (c-double-quote ∷ (content.now ++ (c-double-quote ∷ [])))) }
        ensures err { IfErr result (λ stop. Misses (PageHolds W.contents) (PageStops W.contents) self.old out.old out.new (fault_of stop) (c-double-quote ∷ (content.now ++ (c-double-quote ∷ [])))) }
    {
        self.add(out, b"\"")?;
        self.add(out, content)?;
        self.add(out, b"\"")
    }

    /// Takes a content's spelling.
    fn add_spelled<W: Write>(&mut self, out: &mut Counted<W>, content: &str) -> Result<(), Stop>
        ensures ok { OnOk result (TakesPiece (PageHolds W.contents) self.old out.old self.new out.new (quoted_bytes content.now)) }
        ensures err { IfErr result (λ stop. Misses (PageHolds W.contents) (PageStops W.contents) self.old out.old out.new (fault_of stop) (quoted_bytes content.now)) }
    {
        if is_unescaped(content) {
            return self.add_quoted(out, content.as_bytes());
        }
        self.add_pieces(out, content)
    }

    /// The same, piece by piece.
    #[inline(never)]
    fn add_pieces<W: Write>(&mut self, out: &mut Counted<W>, content: &str) -> Result<(), Stop>
        ensures ok { OnOk result (TakesPiece (PageHolds W.contents) self.old out.old self.new out.new (quoted_bytes content.now)) }
        ensures err { IfErr result (λ stop. Misses (PageHolds W.contents) (PageStops W.contents) self.old out.old out.new (fault_of stop) (quoted_bytes content.now)) }
    {
        self.add(out, b"\"")?;
        let mut rest = content;
        'spell: while !rest.is_empty() {
            let piece = cut(rest);
            self.add_piece(out, &piece)?;
            rest = piece.rest;
        }
        self.add(out, b"\"")
    }
}

impl<W: Write> Sink<Counted<W>> for Page {
    ghost use Rattle.yaml_spell.specs.Pages.{PageHolds, PageStops};

    ghost holds = { PageHolds W.contents };

    ghost stops = { PageStops W.contents };

    #[inline(always)]
    fn put(&mut self, out: &mut Counted<W>, piece: &str) -> Result<(), Stop> {
        self.add(out, piece.as_bytes())
    }

    fn put_spelled(&mut self, out: &mut Counted<W>, content: &str) -> Result<(), Stop> {
        self.add_spelled(out, content)
    }

    #[inline(always)]
    fn count(&mut self, _out: &mut Counted<W>, _len: usize) -> Result<bool, Stop> {
        Ok(false)
    }
}
