//! What a node runs by.

ghost use Rattle.std.specs.Prelude.{◌≡◌, ◌≤◌, Some, IfOk, IfSome, IsErrOf};
ghost use Rattle.toml.specs.Data.{Members};
ghost use Rattle.server_settings.specs.Document.{IsDocument, named_in};
ghost use Rattle.server_settings.specs.Settings.{ServerSettings, AreWithin};
ghost use Rattle.book_state.specs.Places.{AreDisjoint};

use server_book::{OpenError, Settings};
use server_settings::settings_in;
use std::alloc::Global;
use std::net::SocketAddr;
use toml::Table;

/// The most workers: a shared book has 64 passes, and the link has one of its own.
const MOST_WORKERS: usize = 63;

/// Where a node's clients and its partner are heard, and by how many workers.
#[derive(Clone, Copy, Debug)]
pub struct NodeEndpoints {
    /// Where clients' datagrams come.
    pub listen: SocketAddr,
    /// Where the secondary listens for the primary, if there is a link.
    pub link: Option<SocketAddr>,
    workers: usize,
    ghost some: { 1 ≤ workers },
    ghost few: { workers ≤ 63 },
}

impl NodeEndpoints {
    /// Returns how many workers there are, 1 to 63.
    pub fn workers(&self) -> usize
        ensures value { result ≡ self.now.workers }
        ensures some { 1 ≤ result }
        ensures few { result ≤ 63 }
    {
        self.workers
    }
}

/// The settings of a node: its server's, and its ways.
#[derive(Drop)]
pub struct NodeSettings {
    pub server: Settings,
    pub ways: NodeEndpoints,
}

/// The address and port that a text at a key spells.
fn address_at(table: &Table, key: &str) -> Option<SocketAddr> {
    table.get(key)?.as_str()?.parse::<SocketAddr>().ok()
}

fn workers_in(table: &Table) -> Option<usize>
    ensures { IfSome result (λ n. (1 ≤ n) × (n ≤ 63)) }
{
    let workers = usize::try_from(table.get("workers")?.as_integer()?).ok()?;
    if workers == 0 || workers > MOST_WORKERS {
        return None;
    }
    Some(workers)
}

fn ways_in(table: &Table) -> Option<NodeEndpoints> {
    let listen = address_at(table, "listen")?;
    let workers = workers_in(table)?;
    let link = match table.get("link") {
        Some(_) => Some(address_at(table, "link")?),
        None => None,
    };
    Some(NodeEndpoints {
        listen,
        link,
        workers,
    })
}

impl NodeSettings {
    /// The settings that a TOML document names: those of the server's book, and `listen`, `workers` (1 to 63) and
    /// `link`, which may be left out. `Settings` where the text is no such document, lacks a key or has another kind
    /// or value at it, or the server's settings are out of their limits; then `Overlap` where two pools have an
    /// address in common. `Memory` where a growth was refused.
    pub fn read(alloc: Global, text: &[u8]) -> Result<NodeSettings, OpenError>
        ensures server { IfOk result (λ n. (members : Members) × IsDocument text.now members
            × (named_in members ≡ Some n.server)) }
        ensures overlap { IsErrOf result OpenError.Overlap → (members : Members) × IsDocument text.now members
            × ((s : ServerSettings) × (named_in members ≡ Some s) × AreWithin s × (AreDisjoint s.pools → ⊥)) }
    {
        let table = match toml::table_from_slice(alloc, text) {
            Ok(table) => table,
            Err(e) if e.is_memory() => return Err(OpenError::Memory),
            Err(_) => return Err(OpenError::Settings),
        };
        let Some(ways) = ways_in(&table) else {
            return Err(OpenError::Settings);
        };
        let server = settings_in(alloc, &table)?;
        Ok(NodeSettings { server, ways })
    }
}
