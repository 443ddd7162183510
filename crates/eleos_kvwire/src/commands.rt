// The lines of commands.
ghost use Rattle.std.specs.Prelude.{◌≡◌, ◌≤◌, List, ℕ, map};
ghost use Rattle.std.specs.List.{list_all, slice_split};
ghost use Rattle.eleos_kvwire.specs.Commands.{is_key, is_key_byte, client_of, keyed_line};
ghost use Rattle.eleos_kvwire.specs.Commands.{set_line, command_by, command_line, with_value};
ghost use Rattle.eleos_texts.specs.Reasons.{Reads};
ghost use Rattle.std.specs.Prelude.{IfOk, IsTrue};
ghost use Rattle.eleos_kvwire.specs.declared.commands.Given.TheVariants.{Whole};
ghost use Rattle.eleos_texts.specs.Fields.{is_blank, is_numeral};

use crate::stage::SetLine;
use crate::{KvAct, KvCommand};
use eleos_base::Bytes;
use eleos_texts::counts::{one, two, two_and_more};
use eleos_texts::fields::{is_numeral, number_up_to};
use eleos_texts::splits::words_of;
use eleos_texts::{LineRefused, Why, refused};
use std::alloc::{AllocError, Global};

/// Commands of a session.
const MOST_COMMANDS: usize = 100_000;

/// Bytes of a key.
const MOST_KEY: usize = 64;

/// Bytes of a value.
const MOST_VALUE: u64 = 512;

/// What the line of a command gives.
#[derive(Debug, Drop)]
pub(crate) enum Given {
    /// A command.
    Whole { command: KvCommand },
    /// A set, whose value stands behind the line.
    Awaits { set: SetLine },
}

impl SetLine {
    /// The set with its value.
    pub(crate) fn with_value(&self, alloc: Global, value: &[u8]) -> Result<KvCommand, AllocError>
        ensures { IfOk result (λ command. command ≡ with_value self.now value.now) }
    {
        Ok(KvCommand {
            client: self.client,
            act: KvAct::Set {
                key: Bytes::of(self.key.as_slice().to_vec(alloc)?),
                value: Bytes::of(value.to_vec(alloc)?),
            },
        })
    }
}

/// Whether the text can be a key.
fn is_key(text: &[u8]) -> bool
    ensures { result ≡ is_key text.now }
{
    !text.is_empty() && text.len() <= MOST_KEY && are_key_bytes(text)
}

fn are_key_bytes(text: &[u8]) -> bool
    ensures { result ≡ list_all is_key_byte text.now }
{
    text.iter().all(|byte| 33 <= *byte && *byte <= 126)
}

/// The number of one of so many clients, from 1.
fn client_of(clients: u32, text: &[u8]) -> Option<u32>
    requires { IsTrue (is_numeral text.now) }
    ensures { result ≡ client_of clients text.now }
{
    let client = number_up_to(text, u64::from(clients))?;
    if client == 0 {
        return None;
    }
    Some(client as u32)
}

/// `C VERB KEY`, behind so many commands: who gives it, and the key.
fn keyed_line(
    alloc: Global,
    clients: u32,
    before: usize,
    client: &[u8],
    args: &[&[u8]],
) -> Result<(u32, Bytes), LineRefused>
    ensures { Reads (λ x. x) result
        (keyed_line clients before client.now (map (λ arg. arg.now) args.now)) }
{
    let key = one(args)?;
    if !is_numeral(client) || !is_key(key) {
        return refused(Why::Form);
    }
    if before >= MOST_COMMANDS {
        return refused(Why::Many);
    }
    let Some(client) = client_of(clients, client) else {
        return refused(Why::Range);
    };
    Ok((client, Bytes::of(key.to_vec(alloc)?)))
}

/// `C set KEY N`
fn set_line(
    alloc: Global,
    clients: u32,
    before: usize,
    client: &[u8],
    args: &[&[u8]],
) -> Result<SetLine, LineRefused>
    ensures { Reads (λ x. x) result
        (set_line clients before client.now (map (λ arg. arg.now) args.now)) }
{
    let (key, len) = two(args)?;
    if !is_numeral(client) || !is_key(key) || !is_numeral(len) {
        return refused(Why::Form);
    }
    if before >= MOST_COMMANDS {
        return refused(Why::Many);
    }
    let (Some(client), Some(len)) = (client_of(clients, client), number_up_to(len, MOST_VALUE))
    else {
        return refused(Why::Range);
    };
    if len == 0 {
        return refused(Why::Range);
    }
    let key = Bytes::of(key.to_vec(alloc)?);
    let len = len as u32;
    Ok(SetLine { client, key, len })
}

/// The line of a command, by its verb.
fn command_by(
    alloc: Global,
    clients: u32,
    before: usize,
    client: &[u8],
    verb: &[u8],
    args: &[&[u8]],
) -> Result<Given, LineRefused>
    ensures { Reads (λ x. x) result
        (command_by clients before client.now verb.now (map (λ arg. arg.now) args.now)) }
{
    if verb == b"set".as_slice() {
        let set = set_line(alloc, clients, before, client, args)?;
        Ok(Given::Awaits { set })
    } else if verb == b"get".as_slice() {
        let (client, key) = keyed_line(alloc, clients, before, client, args)?;
        Ok(whole(client, KvAct::Get { key }))
    } else if verb == b"delete".as_slice() {
        let (client, key) = keyed_line(alloc, clients, before, client, args)?;
        Ok(whole(client, KvAct::Delete { key }))
    } else if verb == b"stat".as_slice() {
        let (client, key) = keyed_line(alloc, clients, before, client, args)?;
        Ok(whole(client, KvAct::Stat { key }))
    } else {
        refused(Why::Form)
    }
}

fn whole(client: u32, act: KvAct) -> Given
    ensures { result ≡ Whole (record { client = client; act = act }) }
{
    let command = KvCommand { client, act };
    Given::Whole { command }
}

/// The line of a command of one of so many clients, behind so many commands.
pub(crate) fn command_line(
    alloc: Global,
    clients: u32,
    before: usize,
    line: &[u8],
) -> Result<Given, LineRefused>
    ensures { Reads (λ x. x) result
        (command_line clients before (slice_split is_blank line.now)) }
{
    let words = words_of(alloc, line)?;
    let (client, verb, args) = two_and_more(&words)?;
    command_by(alloc, clients, before, client, verb, args)
}
