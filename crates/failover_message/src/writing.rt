//! Frames as octets. Each `put_` call appends the octets of one value.

ghost use Rattle.std.specs.Prelude.{◌≡◌, ◌≤◌, ◌++◌, ◌∷◌, [], length, OnOk, IfOk, IfErr};
ghost use Rattle.std.specs.Int.{w32, w64, w128};
ghost use Rattle.failover_message.specs.Frames.{status_code, acknowledgement_code, role_code, state_code, kind_code};
ghost use Rattle.failover_message.specs.Frames.{number_octets, count_octets, prefix_octets, client_octets};
ghost use Rattle.failover_message.specs.Frames.{update_octets, reply_octets, greeting_octets, body_octets};
ghost use Rattle.failover_message.specs.Frames.{content_octets, frame_octets};

use crate::codes::{acknowledgement_code, role_code, state_code, status_code};
use crate::error::LinkError;
use crate::frame::{Frame, FrameKind};
use binding_rules::{BindReply, Counter, Role, Update};
use bytes::BytesMut;
use client_id::Duid;
use prefix_range::Prefix;
use std::alloc::{AllocError, Global};

/// Room for each frame that is written: the longest tells an update of a client whose DUID has 130 octets.
const ROOM: usize = 194;

/// Returns what stands for a frame's kind.
fn kind_code(kind: &FrameKind) -> u8
    ensures { result ≡ kind_code kind.now }
{
    match kind {
        FrameKind::BindingUpdate(_) => 1,
        FrameKind::BindingReply(_) => 2,
        FrameKind::PoolRequest => 3,
        FrameKind::PoolResponse { .. } => 4,
        FrameKind::UpdateRequest => 5,
        FrameKind::UpdateRequestAll => 6,
        FrameKind::UpdateDone => 7,
        FrameKind::Connect { .. } => 8,
        FrameKind::ConnectReply { .. } => 9,
        FrameKind::Disconnect => 10,
        FrameKind::State(_) => 11,
        FrameKind::Contact { .. } => 12,
    }
}

fn put_octet(out: &mut BytesMut, octet: u8) -> Result<(), AllocError>
    ensures { OnOk result (out.new.items ≡ out.old.items ++ octet ∷ []) }
{
    out.extend_from_slice(&[octet])
}

#[tactic(auto, unfolding(crate::specs::Frames::number_octets))]
fn put_u32(out: &mut BytesMut, number: u32) -> Result<(), AllocError>
    ensures { OnOk result (out.new.items ≡ out.old.items ++ number_octets w32 number) }
{
    out.extend_from_slice(&number.to_be_bytes())
}

#[tactic(auto, unfolding(crate::specs::Frames::number_octets))]
fn put_u64(out: &mut BytesMut, number: u64) -> Result<(), AllocError>
    ensures { OnOk result (out.new.items ≡ out.old.items ++ number_octets w64 number) }
{
    out.extend_from_slice(&number.to_be_bytes())
}

#[tactic(auto, unfolding(crate::specs::Frames::number_octets))]
fn put_u128(out: &mut BytesMut, number: u128) -> Result<(), AllocError>
    ensures { OnOk result (out.new.items ≡ out.old.items ++ number_octets w128 number) }
{
    out.extend_from_slice(&number.to_be_bytes())
}

fn put_count(out: &mut BytesMut, count: Counter) -> Result<(), AllocError>
    ensures { OnOk result (out.new.items ≡ out.old.items ++ count_octets count) }
{
    put_u64(out, count.number())
}

fn put_prefix(out: &mut BytesMut, prefix: &Prefix) -> Result<(), AllocError>
    ensures { OnOk result (out.new.items ≡ out.old.items ++ prefix_octets prefix.now) }
{
    put_octet(out, prefix.len())?;
    put_u128(out, prefix.first())?;
    Ok(())
}

fn put_client(out: &mut BytesMut, client: &Option<Duid>) -> Result<(), AllocError>
    ensures { OnOk result (out.new.items ≡ out.old.items ++ client_octets client.now) }
{
    match client {
        None => put_octet(out, 0),
        Some(client) => {
            let octets = client.as_bytes();
            put_octet(out, octets.len() as u8)?;
            out.extend_from_slice(octets)
        }
    }
}

fn put_update(out: &mut BytesMut, update: &Update) -> Result<(), AllocError>
    ensures { OnOk result (out.new.items ≡ out.old.items ++ update_octets update.now) }
{
    put_octet(out, status_code(update.status))?;
    put_prefix(out, &update.prefix)?;
    put_count(out, update.mine)?;
    put_count(out, update.seen)?;
    put_u64(out, update.end.milliseconds())?;
    put_u32(out, update.iaid.0)?;
    put_client(out, &update.client)?;
    Ok(())
}

fn put_reply(out: &mut BytesMut, reply: &BindReply) -> Result<(), AllocError>
    ensures { OnOk result (out.new.items ≡ out.old.items ++ reply_octets reply.now) }
{
    put_octet(out, acknowledgement_code(reply.acknowledgement))?;
    put_prefix(out, &reply.prefix)?;
    put_count(out, reply.of)?;
    put_count(out, reply.mine)?;
    put_count(out, reply.seen)?;
    Ok(())
}

fn put_greeting(out: &mut BytesMut, role: Role, last: Counter) -> Result<(), AllocError>
    ensures { OnOk result (out.new.items ≡ out.old.items ++ greeting_octets role last) }
{
    put_octet(out, role_code(role))?;
    put_count(out, last)
}

fn put_body(out: &mut BytesMut, kind: &FrameKind) -> Result<(), AllocError>
    ensures { OnOk result (out.new.items ≡ out.old.items ++ body_octets kind.now) }
{
    match kind {
        FrameKind::BindingUpdate(update) => put_update(out, update),
        FrameKind::BindingReply(reply) => put_reply(out, reply),
        FrameKind::PoolResponse { moved } => put_u32(out, *moved),
        FrameKind::Connect { role, last } => put_greeting(out, *role, *last),
        FrameKind::ConnectReply { role, last } => put_greeting(out, *role, *last),
        FrameKind::State(state) => put_octet(out, state_code(*state)),
        FrameKind::Contact { ask, answer } => {
            put_count(out, *ask)?;
            put_count(out, *answer)?;
            Ok(())
        }
        FrameKind::PoolRequest
        | FrameKind::UpdateRequest
        | FrameKind::UpdateRequestAll
        | FrameKind::UpdateDone
        | FrameKind::Disconnect => Ok(()),
    }
}

/// Returns how many octets a client has, its length included.
fn client_len(client: &Option<Duid>) -> u32
    ensures value { result ≡ length (client_octets client.now) }
    ensures within { result ≤ 131 }
{
    match client {
        None => 1,
        Some(client) => 1 + client.as_bytes().len() as u32,
    }
}

/// Returns how many octets the body has.
#[tactic(auto, unfolding(crate::specs::Frames::number_octets))]
fn body_len(kind: &FrameKind) -> u32
    ensures value { result ≡ length (body_octets kind.now) }
    ensures within { result ≤ 177 }
{
    match kind {
        FrameKind::BindingUpdate(update) => 46 + client_len(&update.client),
        FrameKind::BindingReply(_) => 42,
        FrameKind::PoolResponse { .. } => 4,
        FrameKind::Connect { .. } | FrameKind::ConnectReply { .. } => 9,
        FrameKind::State(_) => 1,
        FrameKind::Contact { .. } => 16,
        FrameKind::PoolRequest
        | FrameKind::UpdateRequest
        | FrameKind::UpdateRequestAll
        | FrameKind::UpdateDone
        | FrameKind::Disconnect => 0,
    }
}

/// Returns how many octets stand behind the length field.
#[tactic(auto, unfolding(crate::specs::Frames::number_octets))]
fn content_len(frame: &Frame) -> u32
    ensures { result ≡ length (content_octets frame.now) }
{
    13 + body_len(&frame.kind)
}

/// The octets of a frame; `Memory` where a growth was refused.
pub fn encode(alloc: Global, frame: &Frame) -> Result<BytesMut, LinkError>
    ensures octets { IfOk result (λ octets. octets.items ≡ frame_octets frame.now) }
    ensures memory { IfErr result (λ e. e ≡ LinkError.Memory) }
{
    let mut out = BytesMut::with_capacity(alloc, ROOM)?;
    put_u32(&mut out, content_len(frame))?;
    put_octet(&mut out, kind_code(&frame.kind))?;
    put_u32(&mut out, frame.term)?;
    put_count(&mut out, frame.serial)?;
    put_body(&mut out, &frame.kind)?;
    Ok(out)
}
