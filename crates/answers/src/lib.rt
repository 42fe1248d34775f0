// Why a call refuses, the numbers of the answers, the order of refusals, and the runs of P that are reported with an answer.
#![tactic(auto)]

ghost use Rattle.std.specs.Prelude.{◌≡◌, Ok};
ghost use Rattle.answers.specs.Answers.{number_of, need_of, reported_of};

use std::error::Error;
use std::fmt;

// The cause of a refusal, with its number.
#[derive(Clone, Copy, Debug, PartialEq, Eq)]
pub enum Refusal {
    KeyLength = 1,
    RoundsNumber,
    TagLength,
    OverLimit,
    OutputLength,
    OtherRevision,
    EarlierPart,
    OtherOffset,
    NotSound,
    TagDiffers,
    WidthNumber,
    OtherJob,
    SegmentLength,
    AfterLast,
}

impl fmt::Display for Refusal {
    fn fmt<W: fmt::Write>(&self, f: &mut fmt::Formatter<W>) -> fmt::Result {
        f.write_str(match self {
            Refusal::KeyLength => "the key or the nonce has another length",
            Refusal::RoundsNumber => "the rounds are not 4 or 6",
            Refusal::TagLength => "the tag has another length",
            Refusal::OverLimit => "the part would be too long",
            Refusal::OutputLength => "the output has another length",
            Refusal::OtherRevision => "not the session's revision",
            Refusal::EarlierPart => "that part has ended",
            Refusal::OtherOffset => "not the next offset",
            Refusal::NotSound => "session closed or not sound",
            Refusal::TagDiffers => "the tag differs",
            Refusal::WidthNumber => "the width is not 32 or 64",
            Refusal::OtherJob => "not the session's job",
            Refusal::SegmentLength => "not the length of that segment",
            Refusal::AfterLast => "a segment after the last",
        })
    }
}

impl Error for Refusal {}

// The number of an answer, as the table of answers gives it: 0 where a call does what it is asked.
pub fn number(answer: Result<(), Refusal>) -> u32
    ensures { result ≡ number_of answer }
{
    match answer {
        Ok(()) => 0,
        Err(refusal) => refusal as u32,
    }
}

// One link of a chain of refusals: the refusal where its test fails.
#[tactic(auto, unfolding(crate::specs::Answers::need_of))]
pub fn need(ok: bool, refusal: Refusal) -> Result<(), Refusal>
    ensures { result ≡ need_of ok refusal (Ok tt) }
{
    if ok { Ok(()) } else { Err(refusal) }
}

// What a call answers, and how many times P ran for it.
#[derive(Clone, Copy)]
pub struct Outcome {
    pub answer: Result<(), Refusal>,
    pub runs: u32,
}

// An answer with what it reports of the runs: all of them where the call is done or the tag differs, and none with any other refusal.
#[tactic(auto, unfolding(crate::specs::Answers::runs_with))]
pub fn reported(answer: Result<(), Refusal>, runs: u32) -> Outcome
    ensures { result ≡ reported_of answer runs }
{
    match answer {
        Ok(()) | Err(Refusal::TagDiffers) => Outcome { answer, runs },
        Err(_) => Outcome { answer, runs: 0 },
    }
}
