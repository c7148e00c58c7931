// The scanner: one step for each byte, which never goes back. The public call is `scan_text`.
ghost use Rattle.std.specs.Prelude.{◌≡◌, ◌≤◌, ◌+◌, length, IfOk, OnOk};
ghost use Rattle.mir_lex.specs.Spelling.{previous_of};
ghost use Rattle.mir_lex.specs.Scanner.{outcome, start, extend, push, skip, push_found, emit, end_line, line_feed, begin_minus, push_mark, begin, complete, extend_going, restart, step_equal, step_only, leave_number, leave_minus, leave, stays, byte_step, IsShort, HasRoom, HasLine, IsInText, IsAtEnd, IsSamePlace, IsNextPlace, scan, finish, scanned};

use crate::bytes::{is_blank, single_mark, word_kind};
use crate::numbers::scanned_number;
use crate::{Kind, LexFault, Mark, Memory, Token};
use mir_base::{Items, is_letter, is_name_byte};
use std::alloc::Global;

/// What the bytes since the end of the last token, blank, comment or line end have begun.
#[derive(Clone, Copy, Debug, PartialEq, Eq)]
pub enum Pending {
    /// There are none.
    Idle,
    /// A name or a reserved word.
    Word,
    /// A number.
    Number,
    /// `-`, where a digit behind it makes a number.
    Minus,
    /// `<`
    Less,
    /// `>`
    Greater,
    /// `!`
    Bang,
    /// `|`
    Bar,
    /// `||`, and what follows it on its line.
    Comment,
    /// The first byte of the character U+2190.
    ArrowFirst,
    /// The first two bytes of the character U+2190.
    ArrowSecond,
}

/// The token before, as far as the next one depends on it.
#[derive(Clone, Copy, Debug, PartialEq, Eq)]
pub enum Previous {
    /// A line end, or none.
    LineEnd,
    /// A name or a number.
    Operand,
    /// Another one.
    Other,
}

/// What was scanned so far: the tokens, and the bytes that are pending.
#[derive(Drop)]
pub struct Scan {
    /// The tokens so far.
    pub items: Items<Token>,
    /// The last of them.
    pub previous: Previous,
    /// The line of the next byte, counted from 1.
    pub line: usize,
    /// The place of the first pending byte, counted from 0.
    pub start: usize,
    /// How many bytes are pending.
    pub length: usize,
    /// What they have begun.
    pub pending: Pending,
}

/// A scan that goes on, or has come to a place where no token stands.
#[derive(Drop)]
pub enum Scanned {
    /// It goes on.
    Going(Scan),
    /// No token stands at that place, for this cause.
    Stopped(LexFault),
}

/// The scan of a whole text.
pub fn scan_text(alloc: Global, text: &[u8]) -> Result<Scanned, Memory>
    requires { IsShort text.now }
    ensures { IfOk result (λ finished. finished ≡ scanned text.now) }
{
    match scan_all(alloc, text)? {
        Scanned::Going(scan) => finish(scan, text),
        Scanned::Stopped(fault) => Ok(Scanned::Stopped(fault)),
    }
}

// The scan of the bytes, without what is pending at their end.
fn scan_all(alloc: Global, text: &[u8]) -> Result<Scanned, Memory>
    requires { IsShort text.now }
    ensures value { IfOk result (λ scanned. scanned ≡ scan text.now text.now) }
    ensures place { IfOk result (λ scanned. IsAtEnd text.now scanned) }
{
    let mut scan = Scan::start(alloc);
    for (i, byte) in text.iter().enumerate() {
        match scan.step(text, *byte)? {
            None => {}
            Some(fault) => return Ok(Scanned::Stopped(fault)),
        }
    }
    Ok(Scanned::Going(scan))
}

// The end of a text: the pending bytes end there, and one more line end stands there where the text does not end with a
// line feed.
fn finish(scan: Scan, text: &[u8]) -> Result<Scanned, Memory>
    requires within { scan.start + scan.length ≤ length text.now }
    requires short { IsShort text.now }
    ensures { IfOk result (λ finished. finished ≡ finish text.now (Scanned.Going scan)) }
{
    let mut scan = scan;
    match scan.emit(text)? {
        None => {
            scan.end_line()?;
            Ok(Scanned::Going(scan))
        }
        Some(fault) => Ok(Scanned::Stopped(fault)),
    }
}

// Each step changes the scan in place, and answers why it stops there, if it does.
impl Scan {
    // The scan of no byte.
    fn start(alloc: Global) -> Scan
        ensures { result ≡ start }
    {
        Scan {
            items: Items::new(alloc),
            previous: Previous::LineEnd,
            line: 1,
            start: 0,
            length: 0,
            pending: Pending::Idle,
        }
    }

    // One more byte, by what is pending.
    fn step(&mut self, text: &[u8], byte: u8) -> Result<Option<LexFault>, Memory>
        requires { IsInText text.now self.old }
        ensures value { IfOk result (λ s. outcome s self.new ≡ byte_step text.now self.old byte) }
        ensures next { IfOk result (λ stop. IsNextPlace self.old (outcome stop self.new)) }
    {
        if stays(self.pending, byte) {
            self.extend_going(self.pending)
        } else {
            self.leave(text, byte)
        }
    }

    // One more byte that does not stay in what is pending, by what that is.
    fn leave(&mut self, text: &[u8], byte: u8) -> Result<Option<LexFault>, Memory>
        requires { IsInText text.now self.old }
        ensures value { IfOk result (λ stop. outcome stop self.new ≡ leave text.now self.old byte) }
        ensures next { IfOk result (λ stop. IsNextPlace self.old (outcome stop self.new)) }
    {
        match self.pending {
            Pending::Idle => self.begin_idle(byte),
            Pending::Word => self.restart(text, byte),
            Pending::Number => self.leave_number(text, byte),
            Pending::Minus => self.leave_minus(text, byte),
            Pending::Less if byte == b'-' => self.complete(Mark::Arrow),
            Pending::Less => self.step_equal(text, byte, Mark::LessEqual),
            Pending::Greater => self.step_equal(text, byte, Mark::GreaterEqual),
            Pending::Bang => self.step_equal(text, byte, Mark::NotEqual),
            Pending::Bar => Ok(self.step_only(byte, b'|', Pending::Comment)),
            Pending::Comment => self.restart(text, byte),
            Pending::ArrowFirst => Ok(self.step_only(byte, 0x86, Pending::ArrowSecond)),
            Pending::ArrowSecond if byte == 0x90 => self.complete(Mark::Arrow),
            Pending::ArrowSecond => Ok(Some(LexFault::BadByte(self.line))),
        }
    }

    // A byte behind a number that is no digit.
    fn leave_number(&mut self, text: &[u8], byte: u8) -> Result<Option<LexFault>, Memory>
        requires { IsInText text.now self.old }
        ensures value { IfOk result (λ stop.
            outcome stop self.new ≡ leave_number text.now self.old byte) }
        ensures next { IfOk result (λ stop. IsNextPlace self.old (outcome stop self.new)) }
    {
        if is_name_byte(byte) {
            Ok(Some(LexFault::BadNumber(self.line)))
        } else {
            self.restart(text, byte)
        }
    }

    // A byte behind a `-` that may begin a number.
    fn leave_minus(&mut self, text: &[u8], byte: u8) -> Result<Option<LexFault>, Memory>
        requires { IsInText text.now self.old }
        ensures value { IfOk result (λ stop.
            outcome stop self.new ≡ leave_minus text.now self.old byte) }
        ensures next { IfOk result (λ stop. IsNextPlace self.old (outcome stop self.new)) }
    {
        if byte.is_ascii_digit() {
            self.extend_going(Pending::Number)
        } else {
            self.restart(text, byte)
        }
    }

    // The pending bytes and this one are the mark where it is `=`; else it begins something new.
    fn step_equal(&mut self, text: &[u8], byte: u8, mark: Mark) -> Result<Option<LexFault>, Memory>
        requires { IsInText text.now self.old }
        ensures value { IfOk result (λ stop.
            outcome stop self.new ≡ step_equal text.now self.old byte mark) }
        ensures next { IfOk result (λ stop. IsNextPlace self.old (outcome stop self.new)) }
    {
        if byte == b'=' {
            self.complete(mark)
        } else {
            self.restart(text, byte)
        }
    }

    // A byte where only this one may follow, with what it then makes of the scan.
    fn step_only(&mut self, byte: u8, wanted: u8, pending: Pending) -> Option<LexFault>
        requires { HasRoom 0 self.old }
        ensures { outcome result self.new ≡ step_only self.old byte wanted pending }
    {
        if byte == wanted {
            self.extend(pending);
            None
        } else {
            Some(LexFault::BadByte(self.line))
        }
    }

    // The pending bytes end before this byte, which begins something new.
    fn restart(&mut self, text: &[u8], byte: u8) -> Result<Option<LexFault>, Memory>
        requires { IsInText text.now self.old }
        ensures value { IfOk result (λ stop.
            outcome stop self.new ≡ restart text.now self.old byte) }
        ensures next { IfOk result (λ stop. IsNextPlace self.old (outcome stop self.new)) }
    {
        match self.emit(text)? {
            None => self.begin(byte),
            Some(fault) => Ok(Some(fault)),
        }
    }

    // The first byte where nothing is pending.
    fn begin_idle(&mut self, byte: u8) -> Result<Option<LexFault>, Memory>
        requires place { HasRoom 1 self.old }
        requires lines { HasLine self.old }
        ensures value { IfOk result (λ stop. outcome stop self.new ≡ begin (skip self.old) byte) }
        ensures next { IfOk result (λ stop. IsNextPlace self.old (outcome stop self.new)) }
    {
        self.skip();
        self.begin(byte)
    }

    // The first byte of a token, a blank, a comment or a line end.
    #[tactic(auto, unfolding(crate::specs::Scanner::begin))]
    fn begin(&mut self, byte: u8) -> Result<Option<LexFault>, Memory>
        requires place { HasRoom 1 self.old }
        requires lines { HasLine self.old }
        ensures value { IfOk result (λ stop. outcome stop self.new ≡ begin self.old byte) }
        ensures next { IfOk result (λ stop. IsNextPlace self.old (outcome stop self.new)) }
    {
        if byte == b'\n' {
            self.line_feed()?;
            Ok(None)
        } else if is_blank(byte) {
            self.extend(Pending::Idle);
            self.skip();
            Ok(None)
        } else if is_letter(byte) {
            self.extend_going(Pending::Word)
        } else if byte.is_ascii_digit() {
            self.extend_going(Pending::Number)
        } else if byte == b'-' {
            self.begin_minus()
        } else if byte == b'<' {
            self.extend_going(Pending::Less)
        } else if byte == b'>' {
            self.extend_going(Pending::Greater)
        } else if byte == b'!' {
            self.extend_going(Pending::Bang)
        } else if byte == b'|' {
            self.extend_going(Pending::Bar)
        } else if byte == 0xE2 {
            self.extend_going(Pending::ArrowFirst)
        } else {
            self.push_mark(single_mark(byte))
        }
    }

    // A `-` behind a name or a number of its line is an operator; else it may begin a number.
    fn begin_minus(&mut self) -> Result<Option<LexFault>, Memory>
        requires { HasRoom 1 self.old }
        ensures { IfOk result (λ stop. outcome stop self.new ≡ begin_minus self.old) }
    {
        match self.previous {
            Previous::Operand => self.complete(Mark::Minus),
            _ => self.extend_going(Pending::Minus),
        }
    }

    // The next byte is this mark, or begins nothing.
    fn push_mark(&mut self, mark: Option<Mark>) -> Result<Option<LexFault>, Memory>
        requires { HasRoom 1 self.old }
        ensures { IfOk result (λ stop. outcome stop self.new ≡ push_mark self.old mark) }
    {
        match mark {
            None => Ok(Some(LexFault::BadByte(self.line))),
            Some(mark) => self.complete(mark),
        }
    }

    // The pending bytes and one more are this mark.
    fn complete(&mut self, mark: Mark) -> Result<Option<LexFault>, Memory>
        requires { HasRoom 1 self.old }
        ensures value { IfOk result (λ stop. outcome stop self.new ≡ complete self.old mark) }
        ensures next { IfOk result (λ stop. IsNextPlace self.old (outcome stop self.new)) }
    {
        self.extend(Pending::Idle);
        self.push(Kind::Mark(mark))?;
        Ok(None)
    }

    // A line feed: what follows stands on the next line.
    fn line_feed(&mut self) -> Result<(), Memory>
        requires place { HasRoom 1 self.old }
        requires lines { HasLine self.old }
        ensures { OnOk result (self.new ≡ line_feed self.old) }
    {
        self.extend(Pending::Idle);
        self.end_line()?;
        self.skip();
        self.line += 1;
        Ok(())
    }

    // The pending bytes end a line, which is no token at the start of a text or behind another line end.
    fn end_line(&mut self) -> Result<(), Memory>
        requires { HasRoom 0 self.old }
        ensures { OnOk result (self.new ≡ end_line self.old self.old.previous) }
    {
        match self.previous {
            Previous::LineEnd => Ok(()),
            _ => self.push(Kind::LineEnd),
        }
    }

    // The next byte does not belong to the pending ones.
    #[tactic(auto, unfolding(crate::specs::Scanner::emit))]
    fn emit(&mut self, text: &[u8]) -> Result<Option<LexFault>, Memory>
        requires within { self.old.start + self.old.length ≤ length text.now }
        requires short { IsShort text.now }
        ensures value { IfOk result (λ stop. outcome stop self.new ≡ emit text.now self.old) }
        ensures place { IfOk result (λ stop. IsSamePlace self.old (outcome stop self.new)) }
    {
        match self.pending {
            Pending::Idle => {
                self.skip();
                Ok(None)
            }
            Pending::Comment => {
                self.skip();
                Ok(None)
            }
            Pending::Word => {
                let kind = word_kind(&text[self.start..self.start + self.length]);
                self.push_found(kind, LexFault::LongName(self.line))
            }
            Pending::Number => {
                let value = scanned_number(&text[self.start..self.start + self.length]);
                self.push_found(value.map(Kind::Number), LexFault::BadNumber(self.line))
            }
            Pending::Minus => self.push_going(Kind::Mark(Mark::Minus)),
            Pending::Less => self.push_going(Kind::Mark(Mark::Less)),
            Pending::Greater => self.push_going(Kind::Mark(Mark::Greater)),
            Pending::Bang => self.push_going(Kind::Mark(Mark::Bang)),
            Pending::Bar => Ok(Some(LexFault::BadByte(self.line))),
            Pending::ArrowFirst => Ok(Some(LexFault::BadByte(self.line))),
            Pending::ArrowSecond => Ok(Some(LexFault::BadByte(self.line))),
        }
    }

    // The pending bytes are a token of this kind; where they are none, the scan stops with this fault.
    fn push_found(
        &mut self,
        found: Option<Kind>,
        fault: LexFault,
    ) -> Result<Option<LexFault>, Memory>
        requires { HasRoom 0 self.old }
        ensures { IfOk result (λ stop. outcome stop self.new ≡ push_found self.old found fault) }
    {
        match found {
            None => Ok(Some(fault)),
            Some(kind) => self.push_going(kind),
        }
    }

    // The pending bytes are a token, and the scan goes on.
    fn push_going(&mut self, kind: Kind) -> Result<Option<LexFault>, Memory>
        requires { HasRoom 0 self.old }
        ensures { IfOk result (λ stop. outcome stop self.new ≡ Scanned.Going (push self.old kind)) }
    {
        self.push(kind)?;
        Ok(None)
    }

    // One more byte is pending, and the scan goes on.
    fn extend_going(&mut self, pending: Pending) -> Result<Option<LexFault>, Memory>
        requires { HasRoom 0 self.old }
        ensures { IfOk result (λ stop. outcome stop self.new ≡ extend_going self.old pending) }
    {
        self.extend(pending);
        Ok(None)
    }

    // The pending bytes are a token, which is kept.
    fn push(&mut self, kind: Kind) -> Result<(), Memory>
        requires { HasRoom 0 self.old }
        ensures { OnOk result (self.new ≡ push self.old kind) }
    {
        let token = Token {
            kind,
            start: self.start,
            length: self.length,
            line: self.line,
        };
        self.items.push(token)?;
        self.previous = previous_of(kind);
        self.skip();
        Ok(())
    }

    // The pending bytes are a blank, a comment or a line end.
    fn skip(&mut self)
        requires { HasRoom 0 self.old }
        ensures { self.new ≡ skip self.old }
    {
        self.start += self.length;
        self.length = 0;
        self.pending = Pending::Idle;
    }

    // One more byte is pending.
    fn extend(&mut self, pending: Pending)
        requires { HasRoom 0 self.old }
        ensures { self.new ≡ extend self.old pending }
    {
        self.length += 1;
        self.pending = pending;
    }
}

// Whether a word, a number or a comment is pending that goes on with this byte.
fn stays(pending: Pending, byte: u8) -> bool
    ensures { result ≡ stays pending byte }
{
    match pending {
        Pending::Word => is_name_byte(byte),
        Pending::Number => byte.is_ascii_digit(),
        Pending::Comment => byte != b'\n',
        _ => false,
    }
}

// What the token after one of this kind knows of it.
fn previous_of(kind: Kind) -> Previous
    ensures { result ≡ previous_of kind }
{
    match kind {
        Kind::Name => Previous::Operand,
        Kind::Number(_) => Previous::Operand,
        Kind::LineEnd => Previous::LineEnd,
        _ => Previous::Other,
    }
}
