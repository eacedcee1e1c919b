//! Texts that spell no notice: passed over where the first word isn't known, refused else.

use crate::texts::SETTINGS;
use link_notices::{MOST_OCTETS, NoticeError, ProgramWord, push_notice, read_notice};
use std::alloc::Global;
use std::test::Fail;

/// Returns whether a text is passed over.
fn is_passed_over(alloc: Global, text: &[u8]) -> Result<bool, Fail> {
    Ok(read_notice(alloc, text)?.is_none())
}

/// Why a text is refused.
fn fault_of(alloc: Global, text: &[u8]) -> Option<NoticeError> {
    read_notice(alloc, text).err()
}

/// Returns whether each of some texts is refused for this.
fn are_refused(alloc: Global, texts: &[&[u8]], fault: NoticeError) -> bool {
    texts
        .iter()
        .all(|text| fault_of(alloc, text) == Some(fault))
}

/// A word of so many octets.
fn word(alloc: Global, octets: usize) -> Result<Vec<u8>, Fail> {
    let mut word = Vec::new(alloc);
    word.resize(octets, b'w')?;
    Ok(word)
}

/// Settings with so many pools.
fn with_pools(alloc: Global, pools: usize) -> Result<Vec<u8>, Fail> {
    let mut text = Vec::new(alloc);
    text.extend_from_slice(b"settings 2000 3600 7200 1000")?;
    for _ in 0..pools {
        text.extend_from_slice(b" 2001:0db8:0000:0000:0000:0000:0000:0000/32 56")?;
    }
    Ok(text)
}

#[test]
fn first_words_that_are_not_known(rt: HostRuntime) -> Result<(), Fail> {
    let texts: [&[u8]; 8] = [
        b"",
        b" ",
        b"seal primary 3 closed 1200 00ff",
        b"choice 00ff",
        b"Clock 7 1764417600000",
        b"clocks 7 1764417600000",
        b" clock 7 1764417600000",
        b"clock\n7 1764417600000",
    ];
    for text in texts {
        assert!(&rt; is_passed_over(rt.alloc(), text)?);
    }
    Ok(())
}

#[test]
fn programs(rt: HostRuntime) -> Result<(), Fail> {
    let texts: [&[u8]; 8] = [
        b"program",
        b"program ",
        b"program fengtuyas",
        b"program fengtuyas ",
        b"program  fengtuyas 1.0.0",
        b"program fengtuyas 1.0.0 ",
        b"program fengtuyas 1.0.0 2",
        b"program fengtuyas 1.0.0\n",
    ];
    assert!(&rt; are_refused(rt.alloc(), &texts, NoticeError::Program));
    Ok(())
}

#[test]
fn words_of_a_program(rt: HostRuntime) -> Result<(), Fail> {
    let alloc = rt.alloc();
    assert!(&rt; ProgramWord::new(alloc, &word(alloc, 64)?).is_ok());
    assert_eq!(rt;
        ProgramWord::new(alloc, &word(alloc, 65)?).err(),
        Some(NoticeError::Program)
    );
    let words: [&[u8]; 4] = [b"", b"a b", b"a\x7f", b"\xc3\xa9"];
    for word in words {
        assert_eq!(rt;
            ProgramWord::new(alloc, word).err(),
            Some(NoticeError::Program)
        );
    }
    Ok(())
}

#[test]
fn questions(rt: HostRuntime) -> Result<(), Fail> {
    let texts: [&[u8]; 9] = [
        b"clock",
        b"clock 7",
        b"clock 7 ",
        b"clock 7 1764417600000 1",
        b"clock 07 1764417600000",
        b"clock -7 1764417600000",
        b"clock 18446744073709551616 1764417600000",
        b"clock 7 281474976710657",
        b"clock 7 1764417600000 ",
    ];
    assert!(&rt; are_refused(rt.alloc(), &texts, NoticeError::Clock));
    let last = read_notice(rt.alloc(), b"clock 7 281474976710656")?;
    assert!(&rt; last.is_some());
    Ok(())
}

#[test]
fn answers(rt: HostRuntime) -> Result<(), Fail> {
    let texts: [&[u8]; 7] = [
        b"clock-reply",
        b"clock-reply 7",
        b"clock-reply 7 1764417600000",
        b"clock-reply 7 1764417600000 x",
        b"clock-reply 7 1764417600000 281474976710657",
        b"clock-reply 7 281474976710657 1764417600000",
        b"clock-reply 7 1764417600000 1764417600000 1",
    ];
    assert!(&rt; are_refused(rt.alloc(), &texts, NoticeError::ClockReply));
    Ok(())
}

#[test]
fn settings_by_their_numbers(rt: HostRuntime) -> Result<(), Fail> {
    let texts: [&[u8]; 8] = [
        b"settings",
        b"settings 2000 3600 7200 1000",
        b"settings 86400001 3600 7200 1000 2001:0db8:0000:0000:0000:0000:0000:0000/32 56",
        b"settings 2000 4294967296 7200 1000 2001:0db8:0000:0000:0000:0000:0000:0000/32 56",
        b"settings 2000 3600 4294967296 1000 2001:0db8:0000:0000:0000:0000:0000:0000/32 56",
        b"settings 2000 3600 7200 3600001 2001:0db8:0000:0000:0000:0000:0000:0000/32 56",
        b"settings 2000 3600 7200 2001:0db8:0000:0000:0000:0000:0000:0000/32 56",
        b"settings 2000 3600 7200 1000 1000 2001:0db8:0000:0000:0000:0000:0000:0000/32 56",
    ];
    assert!(&rt; are_refused(rt.alloc(), &texts, NoticeError::Settings));
    let most =
        b"settings 86400000 4294967295 4294967295 3600000 2001:0db8:0000:0000:0000:0000:0000:0000/32 56";
    assert!(&rt; read_notice(rt.alloc(), most)?.is_some());
    Ok(())
}

#[test]
fn settings_by_their_pools(rt: HostRuntime) -> Result<(), Fail> {
    let texts: [&[u8]; 6] = [
        b"settings 2000 3600 7200 1000 2001:0db8:0000:0000:0000:0000:0000:0000/32",
        b"settings 2000 3600 7200 1000 2001:db8::/32 56",
        b"settings 2000 3600 7200 1000 2001:0db8:0000:0000:0000:0000:0000:0001/32 56",
        b"settings 2000 3600 7200 1000 2001:0db8:0000:0000:0000:0000:0000:0000/32 31",
        b"settings 2000 3600 7200 1000 2001:0db8:0000:0000:0000:0000:0000:0000/32 129",
        b"settings 2000 3600 7200 1000 2001:0db8:0000:0000:0000:0000:0000:0000/129 129",
    ];
    assert!(&rt; are_refused(rt.alloc(), &texts, NoticeError::Settings));
    assert!(&rt; read_notice(rt.alloc(), SETTINGS)?.is_some());
    let alloc = rt.alloc();
    assert!(&rt; read_notice(alloc, &with_pools(alloc, 16)?)?.is_some());
    assert_eq!(rt;
        fault_of(alloc, &with_pools(alloc, 17)?),
        Some(NoticeError::Settings)
    );
    Ok(())
}

#[test]
fn lengths(rt: HostRuntime) -> Result<(), Fail> {
    let alloc = rt.alloc();
    let mut out = Vec::new(alloc);
    assert_eq!(rt; push_notice(&mut out, b"").err(), Some(NoticeError::Length));
    let long = word(alloc, MOST_OCTETS + 1)?;
    assert_eq!(rt;
        push_notice(&mut out, &long).err(),
        Some(NoticeError::Length)
    );
    assert!(&rt; out.is_empty());
    push_notice(&mut out, &word(alloc, MOST_OCTETS)?)?;
    assert_eq!(rt; out.len(), 4099);
    assert_eq!(rt; out.first_chunk::<3>(), Some(&[1, 16, 0]));
    Ok(())
}
