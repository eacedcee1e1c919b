//! Documents, and what they are read as or refused by.

use client_limits::{Limits, PortRule};
use serve_settings::{ServeSettings, ServeSettingsError};
use server_settings::OpenError;
use server_timers::Timers;
use std::alloc::{AllocError, Global};
use std::test::Fail;

/// The keys that each document has.
const NODE: &str = "\
role = \"primary\"
duid = \"0003000102000000000a\"
skew_ms = 2000
mclt = 600
life = 3600
listen = \"[::]:547\"
workers = 1
";

const POOL: &str = "\
[[pool]]
prefix = \"2001:db8::/48\"
unit = 56
";

const LINK: &str = "link = \"[2001:db8::b]:647\"\nlink_key = \"link.key\"\n";

/// The same without a key.
const OPEN_LINK: &str = "link = \"[2001:db8::b]:647\"\n";

/// The limits of the document with some keys more, or why it is refused.
fn limits(alloc: Global, keys: &str) -> Result<Result<Timers, ServeSettingsError>, AllocError> {
    let text = format!(in alloc; "{NODE}{keys}{POOL}")?;
    Ok(match ServeSettings::read(alloc, text.as_bytes()) {
        Ok(settings) => Ok(settings.upkeep),
        Err(error) => Err(error),
    })
}

/// The age from which on a server of the document with some keys more tells no grant again.
fn floor(alloc: Global, keys: &str) -> Result<Option<u32>, AllocError> {
    let text = format!(in alloc; "{NODE}alone = true\n{keys}{POOL}")?;
    Ok(match ServeSettings::read(alloc, text.as_bytes()) {
        Ok(settings) => Some(settings.renew_floor),
        Err(_) => None,
    })
}

/// How much clients of a server of the document with some keys more may take.
fn quotas(alloc: Global, keys: &str) -> Result<Option<Limits>, AllocError> {
    let text = format!(in alloc; "{NODE}alone = true\n{keys}{POOL}")?;
    Ok(match ServeSettings::read(alloc, text.as_bytes()) {
        Ok(settings) => Some(settings.quotas),
        Err(_) => None,
    })
}

/// Keys of documents that are refused, and by what.
const REFUSED: [(&str, ServeSettingsError); 22] = [
    ("", ServeSettingsError::NoPartner),
    (
        "lnik = \"[2001:db8::b]:647\"\n",
        ServeSettingsError::NoPartner,
    ),
    ("alone = false\n", ServeSettingsError::NoPartner),
    ("alone = \"true\"\n", ServeSettingsError::Alone),
    ("alone = 1\n", ServeSettingsError::Alone),
    (
        "alone = true\nheartbeat = 0\n",
        ServeSettingsError::Heartbeat,
    ),
    (
        "alone = true\nheartbeat = 31536001\n",
        ServeSettingsError::Heartbeat,
    ),
    (
        "alone = true\nheartbeat = \"60\"\n",
        ServeSettingsError::Heartbeat,
    ),
    (
        "alone = true\nvolume_lines = -1\n",
        ServeSettingsError::VolumeLines,
    ),
    (
        "alone = true\nvolume_lines = 1048576\n",
        ServeSettingsError::VolumeLines,
    ),
    (
        "alone = true\nvolume_hours = 0\n",
        ServeSettingsError::VolumeHours,
    ),
    (
        "alone = true\nvolume_hours = 8761\n",
        ServeSettingsError::VolumeHours,
    ),
    (
        "alone = true\nvolume_hours = 1.5\n",
        ServeSettingsError::VolumeHours,
    ),
    (
        "alone = true\nrenew_floor = -1\n",
        ServeSettingsError::RenewFloor,
    ),
    (
        "alone = true\nrenew_floor = 31536001\n",
        ServeSettingsError::RenewFloor,
    ),
    (
        "alone = true\nias_per_message = -1\n",
        ServeSettingsError::IasPerMessage,
    ),
    (
        "alone = true\nunits_per_client = 65537\n",
        ServeSettingsError::UnitsPerClient,
    ),
    (
        "alone = true\nunits_per_port = \"64\"\n",
        ServeSettingsError::UnitsPerPort,
    ),
    (
        "alone = true\nclient_rate = 1000001\n",
        ServeSettingsError::ClientRate,
    ),
    (
        "alone = true\nbind_to_port = 1\n",
        ServeSettingsError::BindToPort,
    ),
    (
        "alone = true\nlink = 647\n",
        ServeSettingsError::Node(OpenError::Settings),
    ),
    (
        "alone = true\nalone = true\n",
        ServeSettingsError::Node(OpenError::Settings),
    ),
];

#[test]
fn reads_what_a_server_runs_by(rt: HostRuntime) -> Result<(), Fail> {
    let alloc = rt.alloc();
    assert_eq!(rt; limits(alloc, "alone = true\n")?, Ok(Timers::DEFAULT));
    assert_eq!(rt; limits(alloc, LINK)?, Ok(Timers::DEFAULT));
    let greatest =
        "alone = true\nheartbeat = 31536000\nvolume_lines = 1048575\nvolume_hours = 8760\n";
    let Some(upkeep) = Timers::new(31_536_000, 1_048_575, 8_760) else {
        panic!(rt; "each is at least 1");
    };
    assert_eq!(rt; limits(alloc, greatest)?, Ok(upkeep));
    let least = "alone = true\nheartbeat = 1\nvolume_lines = 1\nvolume_hours = 1\n";
    let Some(upkeep) = Timers::new(1, 1, 1) else {
        panic!(rt; "each is at least 1");
    };
    assert_eq!(rt; limits(alloc, least)?, Ok(upkeep));
    assert_eq!(rt; floor(alloc, "")?, Some(360));
    assert_eq!(rt; floor(alloc, "renew_floor = 0\n")?, Some(0));
    assert_eq!(rt; floor(alloc, "renew_floor = 31536000\n")?, Some(31_536_000));
    Ok(())
}

#[test]
fn reads_how_much_clients_may_take(rt: HostRuntime) -> Result<(), Fail> {
    let alloc = rt.alloc();
    let unsaid = Limits {
        ias_per_message: 4,
        units_per_client: 8,
        units_per_port: 64,
        client_rate: 20,
        ports: PortRule::Free,
    };
    assert_eq!(rt; quotas(alloc, "")?, Some(unsaid));
    let none = "ias_per_message = 0\nunits_per_client = 0\nunits_per_port = 0\nclient_rate = 0\n";
    assert_eq!(rt; quotas(alloc, none)?, Some(Limits::NONE));
    let bound = Limits {
        ports: PortRule::Bound,
        ..unsaid
    };
    assert_eq!(rt; quotas(alloc, "bind_to_port = true\n")?, Some(bound));
    Ok(())
}

#[test]
fn refuses_each_fault_by_its_name(rt: HostRuntime) -> Result<(), Fail> {
    let alloc = rt.alloc();
    for (keys, error) in REFUSED {
        assert_eq!(rt; limits(alloc, keys)?, Err(error));
    }
    let open = ServeSettingsError::NoLinkKey;
    assert_eq!(rt; limits(alloc, OPEN_LINK)?, Err(open));
    let empty = format!(in alloc; "{OPEN_LINK}link_key = \"\"\n")?;
    assert_eq!(rt;
        limits(alloc, empty.as_str())?,
        Err(ServeSettingsError::LinkKey)
    );
    let both = format!(in alloc; "alone = true\n{LINK}")?;
    assert_eq!(rt;
        limits(alloc, both.as_str())?,
        Err(ServeSettingsError::PartnerOfAlone)
    );
    let overlapping = "alone = true\n[[pool]]\nprefix = \"2001:db8::/52\"\nunit = 56\n";
    let error = ServeSettingsError::Node(OpenError::Overlap);
    assert_eq!(rt; limits(alloc, overlapping)?, Err(error));
    Ok(())
}
