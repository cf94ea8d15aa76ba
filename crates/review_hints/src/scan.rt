//! What is open before an offset of a text that breaks off there: quotes, brackets and braces. The text is read only roughly, by
//! its indicators, since it is no YAML as a whole.
ghost use Rattle.std.specs.Prelude.{ℕ, List};
ghost use Rattle.review_hints.specs.Hints.{IsMode};

use std::alloc::{AllocError, Global};

/// A quote, a bracket or a brace.
#[derive(Clone, Copy)]
pub struct Opened {
    pub at: usize,
    pub mark: u8,
    /// The column, from 0, at which the lines inside may begin.
    pub floor: usize,
}

/// Where between indicators a text is read.
#[derive(Clone, Copy)]
enum Mode {
    /// Where a node may start.
    Start,
    /// In a plain scalar that starts at this offset.
    Plain(usize),
    Double(Opened),
    /// After a backslash between double quotes.
    Escape(Opened),
    Single(Opened),
    /// After a quote that ends a single-quoted scalar, if none follows it.
    SingleEnd(Opened),
    /// After a quoted scalar or a flow collection.
    Behind,
    /// In an anchor or a tag.
    Property,
    Comment,
    /// In the line of a block scalar's header.
    Header,
    /// At the start of a line that may belong to a block scalar.
    Block,
    BlockLine,
}

/// A text up to an offset.
#[derive(Drop)]
pub struct Scan {
    mode: Mode,
    flow: Vec<Opened>,
    line_start: usize,
    /// Where the first node of this line after its `-` and `?` starts.
    node: Option<usize>,
    floor: usize,
    last: u8,
}

fn is_blank(byte: u8) -> bool {
    matches!(byte, b' ' | b'\t' | b'\r')
}

/// Where a text is read on after a line's end.
fn after_line(mode: Mode) -> Mode
    ensures { (text : List ℕ) (end : ℕ) → IsMode text end mode → IsMode text end result }
{
    match mode {
        Mode::Double(opened) | Mode::Escape(opened) => Mode::Double(opened),
        Mode::Single(opened) => Mode::Single(opened),
        Mode::Header | Mode::Block | Mode::BlockLine => Mode::Block,
        _ => Mode::Start,
    }
}

impl Scan {
    ghost use Rattle.std.specs.Prelude.{◌≡◌, ◌<◌, ℕ, true, length, slice_get, List, Some, IfSome, IfOk, OnOk};
    ghost use Rattle.review_hints.specs.Hinted.{is_mark};
    ghost use Rattle.review_hints.specs.Hints.{IsOpened, IsScanned};

    /// Reads the text before an offset.
    ///
    /// # Errors
    /// `OutOfMemory`
    pub fn of(alloc: Global, before: &str) -> Result<Scan, AllocError>
        ensures ok { IfOk result (IsScanned before.now (length before.now)) }
    {
        let mut scan = Scan {
            mode: Mode::Start,
            flow: Vec::new(alloc),
            line_start: 0,
            node: None,
            floor: 0,
            last: b'\n',
        };
        for (at, byte) in before.bytes().enumerate() {
            if byte == b'\n' {
                scan.end_line(at);
            } else {
                scan.take(at, byte)?;
            }
            scan.last = byte;
        }
        Ok(scan)
    }

    /// The quote in which the offset is.
    pub fn quote(&self) -> Option<Opened>
        ensures { (text : List ℕ) (end : ℕ) → IsScanned text end self.now → IfSome result (IsOpened text end) }
    {
        match self.mode {
            Mode::Double(opened) | Mode::Escape(opened) | Mode::Single(opened) => Some(opened),
            _ => None,
        }
    }

    /// The innermost bracket or brace in which the offset is.
    pub fn bracket(&self) -> Option<Opened>
        ensures { (text : List ℕ) (end : ℕ) → IsScanned text end self.now → IfSome result (IsOpened text end) }
    {
        self.flow.last().copied()
    }

    /// The column, from 0, at which the lines of a node here may begin.
    pub fn floor(&self) -> usize {
        self.floor
    }

    fn column(&self, at: usize) -> usize {
        at.saturating_sub(self.line_start)
    }

    fn opened(&self, at: usize, mark: u8) -> Opened
        ensures { (result.at ≡ at) × (result.mark ≡ mark) }
    {
        let floor = self.floor;
        Opened { at, mark, floor }
    }

    /// After the indicator of an entry: a node below it is indented more than its column.
    fn enter(&mut self)
        ensures { (text : List ℕ) (end : ℕ) → IsScanned text end self.old → IsScanned text end self.new }
    {
        if self.flow.is_empty() {
            if let Some(node) = self.node {
                self.floor = self.column(node).saturating_add(1);
            }
        }
        self.node = None;
        self.mode = Mode::Start;
    }

    fn end_line(&mut self, at: usize)
        ensures { (text : List ℕ) (end : ℕ) → IsScanned text end self.old → IsScanned text end self.new }
    {
        self.end_word(at);
        self.line_start = at.saturating_add(1);
        self.node = None;
        self.mode = after_line(self.mode);
    }

    /// Before a blank or a line's end: `-`, `?`, `---` and what ends with `:` are indicators there.
    fn end_word(&mut self, at: usize)
        ensures { (text : List ℕ) (end : ℕ) → IsScanned text end self.old → IsScanned text end self.new }
    {
        match self.mode {
            Mode::Plain(start) => {
                let is_dash = self.last == b'-' && matches!(at.saturating_sub(start), 1 | 3);
                let is_mark = self.last == b'?' && at.saturating_sub(start) == 1;
                if is_dash || is_mark || self.last == b':' {
                    self.enter();
                }
            }
            Mode::Behind if self.last == b':' => self.enter(),
            Mode::Property => self.mode = Mode::Start,
            _ => {}
        }
    }

    /// Before a character, which may be a blank.
    fn end_at(&mut self, at: usize, byte: u8)
        ensures { (text : List ℕ) (end : ℕ) → IsScanned text end self.old → IsScanned text end self.new }
    {
        if is_blank(byte) {
            self.end_word(at);
        }
    }

    fn take(&mut self, at: usize, byte: u8) -> Result<(), AllocError>
        ensures ok { (text : List ℕ) (end : ℕ) → at < end → slice_get text at ≡ Some byte → IsScanned text end self.old → OnOk result (IsScanned text end self.new) }
    {
        self.end_at(at, byte);
        self.read(at, byte)
    }

    /// Reads a character by where it stands.
    fn read(&mut self, at: usize, byte: u8) -> Result<(), AllocError>
        ensures ok { (text : List ℕ) (end : ℕ) → at < end → slice_get text at ≡ Some byte → IsScanned text end self.old → OnOk result (IsScanned text end self.new) }
    {
        match self.mode {
            Mode::Double(opened) => match byte {
                b'\\' => self.mode = Mode::Escape(opened),
                b'"' => self.mode = Mode::Behind,
                _ => {}
            },
            Mode::Escape(opened) => self.mode = Mode::Double(opened),
            Mode::Single(opened) if byte == b'\'' => self.mode = Mode::SingleEnd(opened),
            Mode::SingleEnd(opened) if byte == b'\'' => self.mode = Mode::Single(opened),
            Mode::SingleEnd(_) => {
                self.mode = Mode::Behind;
                self.behind(byte)?;
            }
            Mode::Behind => self.behind(byte)?,
            Mode::Plain(_) => self.plain(at, byte)?,
            Mode::Start => self.start(at, byte)?,
            Mode::Block => self.block(at, byte)?,
            _ => {}
        }
        Ok(())
    }

    /// Keeps where the first node of a line starts.
    fn begin(&mut self, at: usize)
        ensures { (text : List ℕ) (end : ℕ) → IsScanned text end self.old → IsScanned text end self.new }
    {
        if self.node.is_none() && self.flow.is_empty() {
            self.floor = self.floor.min(self.column(at));
            self.node = Some(at);
        }
    }

    /// Where a node may start.
    fn start(&mut self, at: usize, byte: u8) -> Result<(), AllocError>
        ensures ok { (text : List ℕ) (end : ℕ) → at < end → slice_get text at ≡ Some byte → IsScanned text end self.old → OnOk result (IsScanned text end self.new) }
    {
        if is_blank(byte) {
            return Ok(());
        }
        self.begin(at);
        self.open(at, byte)
    }

    /// By the first character of a node.
    fn open(&mut self, at: usize, byte: u8) -> Result<(), AllocError>
        ensures ok { (text : List ℕ) (end : ℕ) → at < end → slice_get text at ≡ Some byte → IsScanned text end self.old → OnOk result (IsScanned text end self.new) }
    {
        match byte {
            b'"' => self.mode = Mode::Double(self.opened(at, byte)),
            b'\'' => self.mode = Mode::Single(self.opened(at, byte)),
            b'#' if is_blank(self.last) || self.last == b'\n' => self.mode = Mode::Comment,
            b'&' | b'!' => self.mode = Mode::Property,
            b'|' | b'>' if self.flow.is_empty() => self.mode = Mode::Header,
            b'[' | b'{' => {
                let opened = self.opened(at, byte);
                self.flow.push(opened)?;
            }
            b']' | b'}' | b',' if !self.flow.is_empty() => self.behind(byte)?,
            _ => self.mode = Mode::Plain(at),
        }
        Ok(())
    }

    fn plain(&mut self, at: usize, byte: u8) -> Result<(), AllocError>
        ensures ok { (text : List ℕ) (end : ℕ) → at < end → slice_get text at ≡ Some byte → IsScanned text end self.old → OnOk result (IsScanned text end self.new) }
    {
        match byte {
            b'#' if is_blank(self.last) => self.mode = Mode::Comment,
            b'[' | b'{' if !self.flow.is_empty() => {
                let opened = self.opened(at, byte);
                self.flow.push(opened)?;
                self.mode = Mode::Start;
            }
            b']' | b'}' | b',' if !self.flow.is_empty() => self.behind(byte)?,
            _ => {}
        }
        Ok(())
    }

    /// After a node that a character of its own has ended.
    fn behind(&mut self, byte: u8) -> Result<(), AllocError>
        ensures ok { (text : List ℕ) (end : ℕ) → IsScanned text end self.old → OnOk result (IsScanned text end self.new) }
    {
        match byte {
            b']' | b'}' => {
                self.flow.pop();
                self.mode = Mode::Behind;
            }
            b',' => self.mode = Mode::Start,
            b':' if !self.flow.is_empty() => self.mode = Mode::Start,
            b'#' if is_blank(self.last) => self.mode = Mode::Comment,
            _ => {}
        }
        Ok(())
    }

    /// At the start of a line after a block scalar's header.
    fn block(&mut self, at: usize, byte: u8) -> Result<(), AllocError>
        ensures ok { (text : List ℕ) (end : ℕ) → at < end → slice_get text at ≡ Some byte → IsScanned text end self.old → OnOk result (IsScanned text end self.new) }
    {
        if byte == b' ' || byte == b'\r' {
            return Ok(());
        }
        if self.column(at) >= self.floor {
            self.mode = Mode::BlockLine;
            return Ok(());
        }
        self.mode = Mode::Start;
        self.start(at, byte)
    }
}
