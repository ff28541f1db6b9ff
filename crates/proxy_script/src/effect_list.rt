//! What a proxy does, and its text.
ghost use Rattle.std.specs.Prelude.{◌≡◌, ◌++◌, OnOk, IfOk, decimal};
ghost use Rattle.std.specs.Net.Text.{socket_v4_text};
ghost use Rattle.proxy_script.specs.Effects.{block_text, effect_text, effects_text};

use hx_fields::Bytes;
use hx_status::ReplyData;
use itoa::Buffer;
use std::alloc::{AllocError, Global};
use std::net::SocketAddrV4;

/// The most bytes of an effect's line beside an address: a word, two numbers, and what stands between and behind them.
const MOST_LINE: usize = 53;

/// The most bytes of an address, four numbers and a port.
const MOST_ADDRESS: usize = 21;

/// What a proxy does.
#[derive(Drop)]
pub enum Effect {
    /// Bytes go to a client, with what reply they are and what it answers; none for an interim response (RFC 9110,
    /// section 15.2), which is no reply. Nothing of it is in the text.
    Client(u64, Bytes, Option<ReplyData>),
    /// A link is opened to an address, and bytes go to it.
    Forward(u64, SocketAddrV4, Bytes),
    /// A client's connection is closed.
    Close(u64),
    /// A link is dropped.
    Drop(u64),
}

pub(crate) fn push_number(text: &mut Vec<u8>, n: u64) -> Result<(), AllocError>
    ensures { OnOk result (text.new.items ≡ text.old.items ++ decimal n) }
{
    let mut digits = Buffer::new();
    text.extend_from_slice(digits.format(n).as_bytes())
}

fn push_address(text: &mut Vec<u8>, address: SocketAddrV4) -> Result<(), AllocError>
    ensures { OnOk result (text.new.items ≡ text.old.items ++ socket_v4_text address) }
{
    let [a, b, c, d] = address.ip().octets();
    push_number(text, u64::from(a))?;
    text.extend_from_slice(b".")?;
    push_number(text, u64::from(b))?;
    text.extend_from_slice(b".")?;
    push_number(text, u64::from(c))?;
    text.extend_from_slice(b".")?;
    push_number(text, u64::from(d))?;
    text.extend_from_slice(b":")?;
    push_number(text, u64::from(address.port()))
}

fn push_block(text: &mut Vec<u8>, bytes: &[u8]) -> Result<(), AllocError>
    ensures { OnOk result (text.new.items ≡ text.old.items ++ block_text bytes.now) }
{
    push_number(text, bytes.len() as u64)?;
    text.extend_from_slice(b"\n")?;
    text.extend_from_slice(bytes)?;
    text.extend_from_slice(b"\n")
}

fn push_effect(text: &mut Vec<u8>, effect: &Effect) -> Result<(), AllocError>
    ensures { OnOk result (text.new.items ≡ text.old.items ++ effect_text effect.now) }
{
    match effect {
        Effect::Client(n, bytes, _) => {
            text.extend_from_slice(b"client ")?;
            push_number(text, *n)?;
            text.extend_from_slice(b" ")?;
            push_block(text, bytes.as_slice())
        }
        Effect::Forward(l, address, bytes) => {
            text.extend_from_slice(b"forward ")?;
            push_number(text, *l)?;
            text.extend_from_slice(b" ")?;
            push_address(text, *address)?;
            text.extend_from_slice(b" ")?;
            push_block(text, bytes.as_slice())
        }
        Effect::Close(n) => {
            text.extend_from_slice(b"close ")?;
            push_number(text, *n)?;
            text.extend_from_slice(b"\n")
        }
        Effect::Drop(l) => {
            text.extend_from_slice(b"drop ")?;
            push_number(text, *l)?;
            text.extend_from_slice(b"\n")
        }
    }
}

/// How many bytes the text of effects takes, or some more: room for it, so that its memory is asked for once. No clause
/// speaks of it.
fn length_bound_of_effects(effects: &[Effect]) -> usize {
    let mut room = 0usize;
    for effect in effects {
        room = room.saturating_add(MOST_LINE).saturating_add(match effect {
            Effect::Client(_, bytes, _) => bytes.len(),
            Effect::Forward(_, _, bytes) => MOST_ADDRESS.saturating_add(bytes.len()),
            Effect::Close(_) => 0,
            Effect::Drop(_) => 0,
        });
    }
    room
}

/// The text of effects, in order. Its only error is out of memory.
pub fn effects_text(alloc: Global, effects: &[Effect]) -> Result<Vec<u8>, AllocError>
    ensures { IfOk result (λ text. text.items ≡ effects_text effects.now) }
{
    let mut text = Vec::with_capacity(alloc, length_bound_of_effects(effects))?;
    for effect in effects {
        push_effect(&mut text, effect)?;
    }
    Ok(text)
}
