//! The lines of a certificate's text.

ghost use Rattle.std.specs.Prelude.{◌≡◌, ◌≤◌, ◌+◌, ◌↔◌, [], ◌∷◌, suc, length, IsTrue, OnOk, MatchResult, Ok, Err};
ghost use Rattle.text_fields.specs.Parsing.{MovesOr};
ghost use Rattle.text_fields.specs.Cuts.{split};
ghost use Rattle.certificate.specs.Faults.{line_at, head_at};
ghost use Rattle.certificate.specs.declared.stops.TheConstants.{LINE_FEED};

use crate::stops::LINE_FEED;
use causal_order::CertificateFault;
use text_fields::Cuts;

/// The most lines of a certificate, its head and its end line with them.
const MAX_LINES: u32 = 65_536;

/// The most octets of a line before its line feed.
const MAX_LINE_LEN: usize = 32_767;

/// The first line.
const HEAD: &[u8] = b"pd-certificate 1";

/// The lines of a text from the front, each counted from 1.
#[derive(Drop)]
pub struct TextLines<'a> {
    /// The cuts between line feeds that are left: the last stands behind the last line feed.
    left: Cuts<'a>,
    /// How many lines were taken.
    count: u32,
    ghost few: { count ≤ 65536 },
}

impl<'a> TextLines<'a> {
    /// The lines of `text`, before the first is taken.
    pub fn new(text: &'a [u8]) -> TextLines<'a>
        ensures left { result.left ≡ split LINE_FEED text.now }
        ensures count { result.count ≡ 0 }
    {
        TextLines {
            left: Cuts::new(text, LINE_FEED),
            count: 0,
        }
    }

    /// Returns how many lines were taken: the number of the last.
    pub fn count(&self) -> u32
        ensures { result ≡ self.now.count }
    {
        self.count
    }

    /// Goes past the head: `Head` where the first line is another, or has no line feed.
    pub fn head(&mut self) -> Result<(), CertificateFault>
        ensures head { MatchResult result
            (λ _. head_at self.old.left ≡ Ok self.new.left) (λ e. head_at self.old.left ≡ Err e) }
        ensures count { OnOk result (self.new.count ≡ 1) }
    {
        let line = self.left.next_cut().ok_or(CertificateFault::Head)?;
        if line != HEAD || self.left.is_done() {
            return Err(CertificateFault::Head);
        }
        self.count = 1;
        Ok(())
    }

    /// The next line without its line feed: `End` where the text stops, `Form` where the line has no line feed,
    /// is too long or is one too many.
    pub fn next_line(&mut self) -> Result<&'a [u8], CertificateFault>
        ensures line { MovesOr (λ line. line.now) result self.new.left (line_at (suc self.old.count) self.old.left) }
        ensures count { OnOk result (self.new.count ≡ suc self.old.count) }
    {
        let line = self.left.next_cut().ok_or(CertificateFault::End)?;
        let number = self.count + 1;
        let form = CertificateFault::Form { line: number };
        if self.left.is_done() {
            return Err(if line.is_empty() {
                CertificateFault::End
            } else {
                form
            });
        }
        if number > MAX_LINES || line.len() > MAX_LINE_LEN {
            return Err(form);
        }
        self.count = number;
        Ok(line)
    }

    /// Returns whether nothing stands behind the last line that was taken.
    pub fn is_at_end(mut self) -> bool
        ensures { IsTrue result ↔ (self.entry.left ≡ [] ∷ []) }
    {
        match self.left.next_cut() {
            Some([]) => self.left.is_done(),
            _ => false,
        }
    }
}
