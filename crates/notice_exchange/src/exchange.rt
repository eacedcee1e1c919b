//! One end of an exchange of notices.

ghost use Rattle.std.specs.Prelude.{◌≡◌, ◌↔◌, ◌+◌, ◌^◌, ◌<◌, [], Some, None, IsTrue, IfOk, IfSome, OnOk, OnErr, is_some, option_map};
ghost use Rattle.std.specs.List.{AllByRecursion};
ghost use Rattle.link_notices.specs.Comparing.{KeepsApart};
ghost use Rattle.link_notices.specs.declared.notice.Notice.TheVariants.{Clock as AsksClock};
ghost use Rattle.notice_exchange.specs.Exchanges.{Exchange, beginning, shared_settings, heard, answered_at, judged};
ghost use Rattle.notice_exchange.specs.Exchanges.{IsAmong, LetsJoin, IsStage};

use crate::own_settings::pair_settings;
use crate::stage::{ExchangeStage, KeptApart};
use lead_time::{Reading, Skew};
use link_notices::{
    ClockExchange, ClockVerdict, Notice, PairSettings, ProgramWord, SettingsDifference, differences,
};
use server_settings::Settings;
use std::alloc::{AllocError, Global};
use std::marker::Model;
use std::mem;
use text_fields::Listed;

/// A question what the partner's clock shows.
#[derive(Clone, Copy, Debug, PartialEq, Eq)]
pub struct ClockQuestion {
    pub number: u64,
    /// What this server's clock showed when it asked.
    pub asked: Reading,
}

/// Which program the partner is.
#[derive(Drop)]
pub struct PartnerProgram {
    pub name: ProgramWord,
    pub version: ProgramWord,
}

/// What the partner's settings are worth.
#[derive(Drop)]
pub struct PartnerSettings {
    pub skew: Skew,
    /// In what they differ from this server's.
    pub differences: Vec<SettingsDifference>,
}

impl Model for PartnerSettings {
    ghost use Rattle.notice_exchange.specs.Exchanges.{Told};

    ghost Value = { Told };

    ghost view = { λ s. record { skew = s.skew; differences = s.differences.items } };
}

/// One end of what two servers tell each other by notices over one connection. Contracts see all but the partner's
/// program.
#[derive(Drop)]
pub struct NoticeExchange {
    alloc: Global,
    own: PairSettings,
    question: Option<ClockQuestion>,
    told: Option<PartnerSettings>,
    clock: Option<ClockExchange>,
    answers: Vec<Notice>,
    program: Option<PartnerProgram>,
}

impl Model for NoticeExchange {
    ghost use Rattle.notice_exchange.specs.Exchanges.{Exchange};

    ghost Value = { Exchange };

    ghost view = { λ e. record {
      own = e.own;
      question = e.question;
      told = e.told;
      clock = e.clock;
      answers = e.answers.items;
    } };
}

/// The first of these differences that keeps two servers apart.
fn keeping_apart(differences: &[SettingsDifference]) -> Option<SettingsDifference>
    ensures some { IfSome result (λ d. IsAmong d differences.now × KeepsApart d) }
    ensures none { result ≡ None → AllByRecursion LetsJoin differences.now }
{
    match differences {
        [] => None,
        [first, rest @ ..] => {
            if first.keeps_apart() {
                Some(*first)
            } else {
                keeping_apart(rest)
            }
        }
    }
}

/// The clock after an answer to the last question, or the one before, where it answers another.
fn answered(
    question: &Option<ClockQuestion>,
    told: ClockQuestion,
    answered: Reading,
    now: Reading,
    before: Option<ClockExchange>,
) -> Option<ClockExchange>
    ensures { result ≡ answered_at question.now told.number told.asked answered now before }
{
    match question {
        Some(question)
            if question.number == told.number
                && question.asked.milliseconds() == told.asked.milliseconds() => Some(
            ClockExchange {
                asked: told.asked,
                answered,
                back: now,
            },
        ),
        _ => before,
    }
}

impl NoticeExchange {
    /// An exchange of a server of these settings, of which nothing was heard. `AllocError` where a growth was refused.
    pub fn new(alloc: Global, settings: &Settings) -> Result<NoticeExchange, AllocError>
        ensures { IfOk result (λ e. e ≡ beginning (shared_settings settings.now)) }
    {
        Ok(NoticeExchange {
            alloc,
            own: pair_settings(alloc, settings)?,
            question: None,
            told: None,
            clock: None,
            answers: Vec::new(alloc),
            program: None,
        })
    }

    /// The next question, asked when this server's clock shows `now`. An answer to one before says nothing any more.
    pub fn ask(&mut self, now: Reading) -> Notice
        ensures question { IfSome self.new.question (λ q. (q.asked ≡ now) × (result ≡ AsksClock q.number now)) }
        ensures asked { self.new.question ≡ None → ⊥ }
        ensures rest { self.new ≡ record self.old { question = self.new.question } }
    {
        let number = self
            .question
            .map_or(1, |question| question.number.wrapping_add(1));
        self.question = Some(ClockQuestion { number, asked: now });
        Notice::Clock { number, asked: now }
    }

    /// Takes a notice that came when this server's clock showed `now`. `AllocError` where a growth was refused.
    pub fn hear(&mut self, notice: Notice, now: Reading) -> Result<(), AllocError>
        ensures { OnOk result (self.new ≡ heard notice now self.old) }
    {
        match notice {
            Notice::Program { name, version } => self.program = Some(PartnerProgram {
                name,
                version,
            }),
            Notice::Settings(other) => {
                self.told = Some(PartnerSettings {
                    skew: other.skew,
                    differences: differences(self.alloc, &self.own, &other)?,
                });
            }
            Notice::Clock { number, asked } => self.answers.push(Notice::ClockReply {
                number,
                asked,
                answered: now,
            })?,
            Notice::ClockReply {
                number,
                asked,
                answered: shown,
            } => {
                let told = ClockQuestion { number, asked };
                self.clock = answered(&self.question, told, shown, now, self.clock);
            }
        }
        Ok(())
    }

    /// Gives what is to be answered to the partner's questions, and keeps none of it.
    pub fn take_answers(&mut self) -> Vec<Notice>
        ensures given { result.items ≡ self.old.answers }
        ensures none { self.new ≡ record self.old { answers = [] } }
    {
        mem::replace(&mut self.answers, Vec::new(self.alloc))
    }

    /// Returns how far it has come.
    pub fn stage(&self) -> ExchangeStage
        ensures { IsStage self.now result }
    {
        let Some(told) = &self.told else {
            return ExchangeStage::Asks;
        };
        if let Some(difference) = keeping_apart(&told.differences) {
            return ExchangeStage::Apart(KeptApart::Settings(difference));
        }
        let Some(clock) = &self.clock else {
            return ExchangeStage::Asks;
        };
        match clock.verdict(self.own.skew, told.skew) {
            ClockVerdict::TooFarOff => ExchangeStage::Apart(KeptApart::Clocks(clock.range())),
            ClockVerdict::Agrees | ClockVerdict::Unknown => ExchangeStage::Joins,
        }
    }

    /// Returns what the last answer says of the two clocks; none before the partner told its skew and answered.
    pub fn verdict(&self) -> Option<ClockVerdict> {
        let told = self.told.as_ref()?;
        let clock = self.clock.as_ref()?;
        Some(clock.verdict(self.own.skew, told.skew))
    }

    /// The last answer to a question, if one has come.
    pub fn clock(&self) -> Option<ClockExchange>
        ensures { result ≡ self.now.clock }
    {
        self.clock
    }

    /// What the partner's settings are worth, once it told them.
    pub fn settings(&self) -> Option<&PartnerSettings> {
        self.told.as_ref()
    }

    /// Returns whether the last question has yet to be answered.
    pub fn awaits_answer(&self) -> bool {
        match (&self.question, &self.clock) {
            (None, _) => false,
            (Some(_), None) => true,
            (Some(question), Some(clock)) => question.asked != clock.asked,
        }
    }

    /// A copy of this server's settings, as its partner is told them. `AllocError` where a growth was refused.
    pub fn own_settings(&self) -> Result<PairSettings, AllocError>
        ensures { IfOk result (λ s. s ≡ self.now.own) }
    {
        Ok(PairSettings {
            skew: self.own.skew,
            mclt: self.own.mclt,
            life: self.own.life,
            transit: self.own.transit,
            pools: Listed::new(self.own.pools.as_slice().to_vec(self.alloc)?),
        })
    }

    /// Which program the partner is, once it told it.
    pub fn program(&self) -> Option<&PartnerProgram> {
        self.program.as_ref()
    }
}
