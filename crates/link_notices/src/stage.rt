//! Where in a stream of frames and notices an octet stands.

ghost use Rattle.std.specs.Prelude.{◌≡◌, ◌+◌, ◌*◌};
ghost use Rattle.link_notices.specs.Parting.{is_frame_length, is_notice_length, first_stage, frame_stage};
ghost use Rattle.link_notices.specs.Parting.{notice_stage, next_stage};

/// The first octet of a frame.
pub(crate) const FRAME: u8 = 0;

/// The first octet of a notice.
pub(crate) const NOTICE: u8 = 1;

/// The most octets of a notice's text.
pub const MOST_OCTETS: usize = 4096;

/// Where the next octet of a stream stands.
#[derive(Clone, Copy)]
pub(crate) enum Stage {
    /// A frame or a notice begins with it.
    Between,
    /// It is the second of a frame's length.
    SecondOfLength,
    /// The third of a frame's length.
    ThirdOfLength,
    /// The fourth of a frame's length, behind this third.
    FourthOfLength { third: u8 },
    /// It is one of the so many octets of a frame that are still to come.
    InFrame { left: u16 },
    /// The first of a notice's length.
    NoticeLength,
    /// The second of a notice's length, behind this first.
    NoticeLengthEnd { high: u8 },
    /// It is one of the so many octets of a notice's text that are still to come.
    InNotice { left: u16 },
    /// Behind what began neither a frame nor a notice.
    Foreign,
}

/// Returns whether a frame may have so many octets behind its length field.
fn is_frame_length(octets: u16) -> bool
    ensures { result ≡ is_frame_length octets }
{
    13 <= octets && octets <= 512
}

/// Returns whether a notice may have so many octets.
pub(crate) fn is_notice_length(octets: u16) -> bool
    ensures { result ≡ is_notice_length octets }
{
    1 <= octets && octets <= 4096
}

/// The number of these two octets, the higher one first.
pub(crate) fn number_of_two(high: u8, low: u8) -> u16
    ensures { result ≡ 256 * high + low }
{
    256 * u16::from(high) + u16::from(low)
}

fn first_stage(octet: u8) -> Stage
    ensures { result ≡ first_stage octet }
{
    match octet {
        FRAME => Stage::SecondOfLength,
        NOTICE => Stage::NoticeLength,
        _ => Stage::Foreign,
    }
}

fn frame_stage(octets: u16) -> Stage
    ensures { result ≡ frame_stage octets }
{
    if is_frame_length(octets) {
        Stage::InFrame { left: octets }
    } else {
        Stage::Foreign
    }
}

fn notice_stage(octets: u16) -> Stage
    ensures { result ≡ notice_stage octets }
{
    if is_notice_length(octets) {
        Stage::InNotice { left: octets }
    } else {
        Stage::Foreign
    }
}

/// Where the octet behind this one stands.
pub(crate) fn next_stage(stage: Stage, octet: u8) -> Stage
    ensures { result ≡ next_stage stage octet }
{
    match stage {
        Stage::Between => first_stage(octet),
        Stage::SecondOfLength if octet == 0 => Stage::ThirdOfLength,
        Stage::SecondOfLength => Stage::Foreign,
        Stage::ThirdOfLength => Stage::FourthOfLength { third: octet },
        Stage::FourthOfLength { third } => frame_stage(number_of_two(third, octet)),
        Stage::InFrame { left } if left <= 1 => Stage::Between,
        Stage::InFrame { left } => Stage::InFrame { left: left - 1 },
        Stage::NoticeLength => Stage::NoticeLengthEnd { high: octet },
        Stage::NoticeLengthEnd { high } => notice_stage(number_of_two(high, octet)),
        Stage::InNotice { left } if left <= 1 => Stage::Between,
        Stage::InNotice { left } => Stage::InNotice { left: left - 1 },
        Stage::Foreign => Stage::Foreign,
    }
}
