//! The length of a text, up to a limit.
ghost use Rattle.std.specs.Prelude.{◌≤◌};

use crate::quoted::{cut, is_unescaped};
use crate::sink::Sink;
use crate::stop::Stop;

/// How many bytes a text has, of which no more than a limit are taken.
#[derive(Drop)]
pub(crate) struct Length {
    len: usize,
    limit: usize,
    ghost within: { len ≤ limit },
}

impl Length {
    ghost use Rattle.std.specs.Prelude.{◌≡◌, ◌≤◌, ◌<◌, ◌+◌, length, OnOk, IfErr};
    ghost use Rattle.yaml_scalar.specs.Spelling.{quoted_bytes};
    ghost use Rattle.yaml_spell.specs.SinkViews.{len_of, limit_of};

    /// No byte yet.
    pub(crate) fn new(limit: usize) -> Length
        ensures len { len_of result ≡ 0 }
        ensures limit { limit_of result ≡ limit }
    {
        Length { len: 0, limit }
    }

    /// How many bytes were taken.
    pub(crate) fn len(&self) -> usize
        ensures len { result ≡ len_of self.now }
        ensures within { result ≤ limit_of self.now }
    {
        self.len
    }

    /// Takes so many bytes more, if there is room.
    #[inline(always)]
    fn grow(&mut self, by: u128) -> Result<(), Stop>
        ensures limit { limit_of self.new ≡ limit_of self.old }
        ensures ok { OnOk result (len_of self.new ≡ len_of self.old + by) }
        ensures err { IfErr result (λ stop. (stop ≡ Stop.TextTooLong) × (limit_of self.old < len_of self.old + by)) }
    {
        if by > (self.limit - self.len) as u128 {
            return Err(Stop::TextTooLong);
        }
        self.len += by as usize;
        Ok(())
    }

    /// Takes so many bytes more as a content's spelling has.
    fn grow_spelled(&mut self, content: &str) -> Result<(), Stop>
        ensures limit { limit_of self.new ≡ limit_of self.old }
        ensures ok { OnOk result (len_of self.new ≡ len_of self.old + length (quoted_bytes content.now)) }
        ensures err { IfErr result (λ stop. (stop ≡ Stop.TextTooLong) × (limit_of self.old < len_of self.old + length (quoted_bytes content.now))) }
    {
        if is_unescaped(content) {
            return self.grow(content.len() as u128 + 2);
        }
        self.grow_pieces(content)
    }

    /// The same, piece by piece.
    #[inline(never)]
    fn grow_pieces(&mut self, content: &str) -> Result<(), Stop>
        ensures limit { limit_of self.new ≡ limit_of self.old }
        ensures ok { OnOk result (len_of self.new ≡ len_of self.old + length (quoted_bytes content.now)) }
        ensures err { IfErr result (λ stop. (stop ≡ Stop.TextTooLong) × (limit_of self.old < len_of self.old + length (quoted_bytes content.now))) }
    {
        self.grow(2)?;
        let mut rest = content;
        'measure: while !rest.is_empty() {
            let piece = cut(rest);
            self.grow(piece.len())?;
            rest = piece.rest;
        }
        Ok(())
    }
}

impl Sink<()> for Length {
    ghost use Rattle.std.specs.Prelude.{OnOk, IfErr};
    ghost use Rattle.yaml_scalar.specs.Spelling.{quoted_bytes};
    ghost use Rattle.yaml_spell.specs.Pieces.{TakesPiece, Misses};
    ghost use Rattle.yaml_spell.specs.SinkViews.{LengthHolds, LengthStops};

    ghost holds = { λ s _ b xs. LengthHolds s b xs };

    ghost stops = { λ _ b fault xs. LengthStops b fault xs };

    fn put(&mut self, _out: &mut (), piece: &str) -> Result<(), Stop> {
        self.grow(piece.len() as u128)
    }

    fn put_spelled(&mut self, _out: &mut (), content: &str) -> Result<(), Stop> {
        self.grow_spelled(content)
    }

    #[inline(always)]
    fn count(&mut self, _out: &mut (), len: usize) -> Result<bool, Stop> {
        self.grow(len as u128)?;
        Ok(true)
    }
}
