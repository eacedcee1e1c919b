//! An answer, part by part, and the object of it.

ghost use Rattle.std.specs.Prelude.{◌≡◌, ◌++◌, OnOk, IfOk, string_bytes};
ghost use Rattle.serde_json.specs.View.{view};
ghost use Rattle.certificate.specs.Spelling.{certificate_text};
ghost use Rattle.answer_data.specs.Parts.{said, nothing, with_line, with_certificate, with_holder, with_ruling, with_none};
ghost use Rattle.answer_data.specs.Parts.{with_found, with_answer, with_volumes, with_access, record_in, records_in};
ghost use Rattle.answer_data.specs.Answers.{IsHolder, IsFrom, IsTo, IsAnswerLine};
ghost use Rattle.answer_data.specs.Texts.{octets_of, without_feed};
ghost use Rattle.answer_data.specs.Volumes.{IsVolumesData};

use crate::texts::{add_text, lines_of, texts_of, without_feed};
use crate::volumes::volumes_value;
use attribution_desk::{DeskError, Finding, SearchAnswer};
use causal_order::Certificate;
use client_id::Duid;
use holder_answers::HolderAnswer;
use lead_time::Reading;
use pair_judgement::{Judgement, judgement_line};
use report_data::{Object, client_of, time_of};
use serde_json::Value;
use std::alloc::{AllocError, Global};
use text_fields::Cuts;
use volume_spans::SpanPair;

/// Whom an answer names as the holder of a prefix, and from when to when.
#[derive(Clone, Copy, Debug)]
pub struct NamedHolder {
    pub client: Duid,
    pub from: Reading,
    /// The first moment past the interval.
    pub to: Reading,
}

/// What an answer says, before it is an object. Its texts have no line feed at their ends.
#[derive(Debug, Drop)]
pub struct AnswerParts {
    /// Lines that say one thing, as `accepted`, `none` or `refused ..`.
    lines: Vec<Vec<u8>>,
    named: Option<NamedHolder>,
    certificates: Vec<Vec<u8>>,
    /// Access records.
    access: Vec<Vec<u8>>,
    /// Over which volumes the answer is.
    volumes: Option<SpanPair>,
}

/// The client that is named, or null.
fn holder_value(alloc: Global, named: &Option<NamedHolder>) -> Result<Value, AllocError>
    ensures { IfOk result (λ v. IsHolder named.now (view v)) }
{
    match named {
        Some(named) => client_of(alloc, &named.client),
        None => Ok(Value::Null),
    }
}

/// From when it held the prefix, or null.
fn from_value(alloc: Global, named: &Option<NamedHolder>) -> Result<Value, AllocError>
    ensures { IfOk result (λ v. IsFrom named.now (view v)) }
{
    match named {
        Some(named) => time_of(alloc, named.from.milliseconds()),
        None => Ok(Value::Null),
    }
}

/// Up to when, or null.
fn to_value(alloc: Global, named: &Option<NamedHolder>) -> Result<Value, AllocError>
    ensures { IfOk result (λ v. IsTo named.now (view v)) }
{
    match named {
        Some(named) => time_of(alloc, named.to.milliseconds()),
        None => Ok(Value::Null),
    }
}

/// The volumes, or null.
fn over_value(alloc: Global, volumes: &Option<SpanPair>) -> Result<Value, AllocError>
    ensures { IfOk result (λ v. IsVolumesData volumes.now (view v)) }
{
    volumes_value(alloc, volumes.as_ref())
}

/// A certificate's text. `Memory` where a growth was refused.
fn certificate_text(alloc: Global, certificate: &Certificate) -> Result<Vec<u8>, DeskError>
    ensures { IfOk result (λ text. text.items ≡ certificate_text certificate.now) }
{
    match certificate::write(alloc, certificate) {
        Ok(text) => Ok(text),
        Err(_) => Err(DeskError::Memory),
    }
}

/// Adds the record of a line behind its word, where it is one.
fn add_record(alloc: Global, records: &mut Vec<Vec<u8>>, line: &[u8]) -> Result<(), AllocError>
    ensures { OnOk result (octets_of records.new.items ≡ octets_of records.old.items ++ record_in line.now) }
{
    let Some(record) = line.strip_prefix(b"access ") else {
        return Ok(());
    };
    let mut text = Vec::new(alloc);
    text.extend_from_slice(record)?;
    add_text(records, text)
}

/// Adds the records of a text's lines.
#[tactic(auto, using(crate::proofs::Lists::gathering, crate::proofs::Lists::one_gathered, crate::proofs::Lists::all_gathered))]
fn add_records(alloc: Global, records: &mut Vec<Vec<u8>>, text: &[u8]) -> Result<(), AllocError>
    ensures { OnOk result (octets_of records.new.items ≡ octets_of records.old.items ++ records_in text.now) }
{
    let mut lines = Cuts::new(without_feed(text), b'\n');
    while let Some(line) = lines.next_cut() {
        add_record(alloc, records, line)?;
    }
    Ok(())
}

impl AnswerParts {
    /// An answer that says nothing yet.
    pub fn new(alloc: Global) -> AnswerParts
        ensures { said result ≡ nothing }
    {
        AnswerParts {
            lines: Vec::new(alloc),
            named: None,
            certificates: Vec::new(alloc),
            access: Vec::new(alloc),
            volumes: None,
        }
    }

    /// Adds a line, without the line feed at its end. `AllocError` where a growth was refused.
    pub fn add_line(&mut self, alloc: Global, line: &[u8]) -> Result<(), AllocError>
        ensures { OnOk result (said self.new ≡ with_line (without_feed line.now) (said self.old)) }
    {
        let mut text = Vec::new(alloc);
        text.extend_from_slice(without_feed(line))?;
        add_text(&mut self.lines, text)
    }

    /// Adds the line that says that there is none. `AllocError` where a growth was refused.
    pub fn add_none(&mut self, alloc: Global) -> Result<(), AllocError>
        ensures { OnOk result (said self.new ≡ with_none (said self.old)) }
    {
        let mut text = Vec::new(alloc);
        text.extend_from_slice(b"none")?;
        add_text(&mut self.lines, text)
    }

    /// Adds the text of a certificate. `Memory` where a growth was refused.
    pub fn add_certificate(
        &mut self,
        alloc: Global,
        certificate: &Certificate,
    ) -> Result<(), DeskError>
        ensures { OnOk result (said self.new ≡ with_certificate certificate.now (said self.old)) }
    {
        let text = certificate_text(alloc, certificate)?;
        add_text(&mut self.certificates, text)?;
        Ok(())
    }

    /// Adds the line of a ruling. `AllocError` where a growth was refused.
    #[tactic(auto, using(crate::proofs::Feeds::without_added))]
    pub fn add_ruling(&mut self, alloc: Global, ruling: &Judgement) -> Result<(), AllocError>
        ensures { OnOk result (said self.new ≡ with_ruling ruling.now (said self.old)) }
    {
        let line = judgement_line(alloc, ruling)?;
        self.add_line(alloc, &line)
    }

    /// Adds what was found of an interval. `Memory` where a growth was refused.
    pub fn add_found(&mut self, alloc: Global, answer: &SearchAnswer) -> Result<(), DeskError>
        ensures { OnOk result (said self.new ≡ with_found answer.now (said self.old)) }
    {
        match answer {
            SearchAnswer::Refused(ruling) => Ok(self.add_ruling(alloc, ruling)?),
            SearchAnswer::Found(Finding::Shown(certificate)) => {
                self.add_certificate(alloc, certificate)
            }
            SearchAnswer::Found(Finding::NoneFound) => Ok(self.add_none(alloc)?),
            SearchAnswer::Found(Finding::TooLong) => Ok(self.add_none(alloc)?),
        }
    }

    /// Adds who held the prefix and when, with the certificate.
    fn add_holder(&mut self, alloc: Global, certificate: &Certificate) -> Result<(), DeskError>
        ensures { OnOk result (said self.new ≡ with_holder certificate.now (said self.old)) }
    {
        self.add_certificate(alloc, certificate)?;
        self.named = Some(NamedHolder {
            client: certificate.holder,
            from: certificate.from,
            to: certificate.to,
        });
        Ok(())
    }

    /// Adds who held the prefix, or that nobody is named. `Memory` where a growth was refused.
    pub fn add_answer(&mut self, alloc: Global, answer: &HolderAnswer) -> Result<(), DeskError>
        ensures { OnOk result (said self.new ≡ with_answer answer.now (said self.old)) }
    {
        match answer {
            HolderAnswer::Held(certificate) => self.add_holder(alloc, certificate),
            HolderAnswer::Refused(ruling) => Ok(self.add_ruling(alloc, ruling)?),
            HolderAnswer::NotNamed(_) => Ok(self.add_none(alloc)?),
            HolderAnswer::TooLong(_) => Ok(self.add_none(alloc)?),
        }
    }

    /// Adds lines of access records, each without the word `access`. `AllocError` where a growth was refused.
    pub fn add_access(&mut self, alloc: Global, access: &[u8]) -> Result<(), AllocError>
        ensures { OnOk result (said self.new ≡ with_access access.now (said self.old)) }
    {
        add_records(alloc, &mut self.access, access)
    }

    /// Says over which volumes the answer is.
    pub fn set_volumes(&mut self, spans: &SpanPair)
        ensures { said self.new ≡ with_volumes spans.now (said self.old) }
    {
        self.volumes = Some(*spans);
    }

    /// The object as a text, and a line feed.
    fn object_line(
        self,
        alloc: Global,
        command: &'static str,
        status: u8,
        notes: &[u8],
    ) -> Result<String, AllocError>
        ensures { IfOk result
            (λ line. IsAnswerLine command.now status (said self) notes.now (string_bytes line)) }
    {
        Object::answer(alloc)
            .with("command", command)
            .with("status", status)
            .with_made("lines", texts_of(alloc, &self.lines))
            .with_made("holder", holder_value(alloc, &self.named))
            .with_made("from", from_value(alloc, &self.named))
            .with_made("to", to_value(alloc, &self.named))
            .with_made("certificates", texts_of(alloc, &self.certificates))
            .with_made("access", texts_of(alloc, &self.access))
            .with_made("notes", lines_of(alloc, notes))
            .with_made("volumes", over_value(alloc, &self.volumes))
            .into_line()
    }

    /// The object, and a line feed: of an answer on this command, with its status, and the lines of standard error.
    /// `AllocError` where a growth was refused.
    pub fn into_line(
        self,
        alloc: Global,
        command: &'static str,
        status: u8,
        notes: &[u8],
    ) -> Result<Vec<u8>, AllocError>
        ensures { IfOk result (λ text. IsAnswerLine command.now status (said self) notes.now text.items) }
    {
        let line = self.object_line(alloc, command, status, notes)?;
        Ok(line.into_bytes())
    }
}
