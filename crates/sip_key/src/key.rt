//! The keys of transactions.
ghost use Rattle.std.specs.Prelude.{◌≡◌, ◌++◌, ◌∷◌, ◌≤◌, [], IfOk, OnOk, IfSome, length, option_copied};
ghost use Rattle.std.specs.Cmp.{decided, partial_equiv_from_equiv};
ghost use Rattle.std.specs.Hash as fed;
ghost use Rattle.sip_standard.specs.Case.{folded};
ghost use Rattle.sip_standard.specs.Profile.{Port};
ghost use Rattle.sip_standard.specs.Key.{same_key};
ghost use Rattle.sip_key.specs.inner.KeyText.{after_length, key_text, key_head, length_bytes, length_in, role_byte};
ghost use Rattle.sip_standard.specs.SentBy.{sent_by};
ghost use Rattle.sip_standard.specs.declared.role.Role.{Role};
ghost use Rattle.sip_standard.specs.declared.role.Role.TheVariants.{Client, Server};
ghost use Rattle.sip_standard.proofs.SameKey.{same_key-decides};

use crate::sent_by::{MOST_PORT_BYTES, push_port};
use sip_standard::Role;
use std::alloc::{AllocError, Global};
use std::hash::{Hash, Hasher};
use std::marker::Model;

/// What tells one transaction from another (RFC 3261, sections 17.1.3 and 17.2.3). Its branch
/// and its host are in lower case, its method is as it was read, and it borrows nothing.
#[derive(Debug, Drop)]
pub struct Key {
    /// What a hasher is fed: the role, how long the branch and the method are, and then the branch, the sent-by and the method.
    text: Vec<u8>,
}

impl Model for Key {
    ghost use Rattle.std.specs.Prelude.{◌≡◌};
    ghost use Rattle.sip_standard.specs.Key.{KeyParts};
    ghost use Rattle.sip_key.specs.inner.KeyText.{key_text, parts_of};

    // Contracts see a key as its parts, which its text tells.
    ghost Value = { KeyParts };

    ghost view = { λ k. parts_of k.text.items };

    // At all times the text is that of the parts that it tells.
    ghost invariant = { λ k. k.text.items ≡ key_text (parts_of k.text.items) };
}

/// The byte of a length that says that the length goes on, and how much of the length it stands for. It is no letter, so that lower case leaves it.
const GOES_ON: usize = 64;

/// How many bytes stand before the texts of a key with a branch and a method of these lengths.
fn head_room(branch: usize, method: usize) -> usize
    ensures { (role : Role) → result ≡ length (key_head role branch method) }
{
    // The role takes one byte. Each length takes one, and one more for each 64 of it.
    3 + branch / GOES_ON + method / GOES_ON
}

/// Puts a length after the text, in one byte where it is below 64.
#[inline(always)]
fn push_length(text: &mut Vec<u8>, count: usize) -> Result<(), AllocError>
    ensures { OnOk result (text.new.items ≡ text.old.items ++ length_bytes count) }
{
    for _ in 0..count / GOES_ON {
        text.push(GOES_ON as u8)?;
    }
    text.push((count % GOES_ON) as u8)?;
    Ok(())
}

/// The length with which the text begins, and what stands after it.
fn split_length(text: &[u8]) -> (usize, &[u8])
    requires { length_in text.now ≤ length text.now }
    ensures count { result.0 ≡ length_in text.now }
    ensures rest { result.1.now ≡ after_length text.now }
{
    let mut left = text;
    let mut count = 0;
    while let Some((first, rest)) = left.split_first() {
        let byte = usize::from(*first);
        count += byte;
        if byte != GOES_ON {
            return (count, rest);
        }
        left = rest;
    }
    (count, left)
}

/// The role as a byte.
fn role_byte(role: Role) -> u8
    ensures { result ≡ role_byte role }
{
    match role {
        Role::Client => 0,
        Role::Server => 1,
    }
}

/// The beginning of a key's text, with this much room: the head, and then the branch as it is.
#[inline(always)]
fn begun(
    alloc: Global,
    room: usize,
    role: Role,
    branch: &[u8],
    method: &[u8],
) -> Result<Vec<u8>, AllocError>
    ensures { IfOk result (λ text. text.items ≡ key_head role (length branch.now) (length method.now) ++ branch.now) }
{
    let mut text = Vec::with_capacity(alloc, room)?;
    text.push(role_byte(role))?;
    push_length(&mut text, branch.len())?;
    push_length(&mut text, method.len())?;
    text.extend_from_slice(branch)?;
    Ok(text)
}

/// Turns the text into lower case.
#[inline(always)]
fn fold(text: &mut Vec<u8>)
    ensures { text.new.items ≡ folded text.old.items }
{
    text.make_ascii_lowercase();
}

impl Key {
    /// The key of a client transaction with this branch and method.
    #[inline(always)]
    pub(crate) fn client(alloc: Global, branch: &[u8], method: &[u8]) -> Result<Key, AllocError>
        ensures { IfOk result (λ key. key ≡ record { role = Client; branch = folded branch.now; sent_by = []; method = method.now }) }
    {
        let room = head_room(branch.len(), method.len())
            .saturating_add(branch.len())
            .saturating_add(method.len());
        let mut text = begun(alloc, room, Role::Client, branch, method)?;
        fold(&mut text);
        text.extend_from_slice(method)?;
        Ok(Key { text })
    }

    /// The key of a server transaction with this branch, host and port of sent-by, and method.
    pub(crate) fn server(
        alloc: Global,
        branch: &[u8],
        host: &[u8],
        port: Option<&[u8]>,
        method: &[u8],
    ) -> Result<Key, AllocError>
        requires { IfSome (option_copied port) Port }
        ensures { IfOk result (λ key. key ≡ record { role = Server; branch = folded branch.now; sent_by = sent_by host.now (option_copied port.entry); method = method.now }) }
    {
        // There is room for the whole key from the start.
        let sent_by_room = host.len() + MOST_PORT_BYTES;
        let room = head_room(branch.len(), method.len())
            .saturating_add(branch.len())
            .saturating_add(sent_by_room)
            .saturating_add(method.len());
        let mut text = begun(alloc, room, Role::Server, branch, method)?;
        text.extend_from_slice(host)?;
        fold(&mut text);
        push_port(&mut text, port)?;
        text.extend_from_slice(method)?;
        Ok(Key { text })
    }

    /// The role in the transaction: client or server.
    pub fn role(&self) -> Role
        ensures { result ≡ self.now.role }
    {
        match self.text[0] {
            0 => Role::Client,
            _ => Role::Server,
        }
    }

    /// How long the branch and the method are, and the branch, the sent-by and the method in a row.
    fn split(&self) -> (usize, usize, &[u8])
        ensures branch { result.0 ≡ length self.now.branch }
        ensures method { result.1 ≡ length self.now.method }
        ensures texts { result.2.now ≡ (self.now.branch ++ self.now.sent_by) ++ self.now.method }
    {
        let (branch, rest) = split_length(&self.text[1..]);
        let (method, texts) = split_length(rest);
        (branch, method, texts)
    }

    /// The top Via's branch, in lower case.
    pub fn branch(&self) -> &[u8]
        ensures { result.now ≡ self.now.branch }
    {
        let (branch, _, texts) = self.split();
        &texts[..branch]
    }

    /// The top Via's sent-by in the key of a server: the host in lower case, `:` and the number of the port. It is empty in a client's key.
    pub fn sent_by(&self) -> &[u8]
        ensures { result.now ≡ self.now.sent_by }
    {
        let (branch, method, texts) = self.split();
        &texts[branch..texts.len() - method]
    }

    /// The method of the request that made the transaction.
    pub fn method(&self) -> &[u8]
        ensures { result.now ≡ self.now.method }
    {
        let (_, method, texts) = self.split();
        &texts[texts.len() - method..]
    }
}

impl PartialEq for Key {
    // Keys are equal where their parts are.
    ghost eq = { same_key };

    // The laws of equality hold, since the test decides whether keys are the same.
    ghost laws = { partial_equiv_from_equiv (decided same_key same_key-decides) };

    fn eq(&self, other: &Key) -> bool {
        self.text == other.text
    }
}

impl Eq for Key {
    // The same laws, which include that a key is equal to itself.
    ghost laws = { decided same_key same_key-decides };
}

impl Hash for Key {
    // What a hasher is fed is the text of the key, in one piece.
    ghost hash_input = { λ k. key_text k ∷ [] };

    // Equal keys are the same, so that they feed a hasher alike.
    ghost respects_eq = { (fed.same_Alike _ same_key-decides).fed };

    fn hash<H: Hasher>(&self, state: &mut H) {
        state.write(self.text.as_slice());
    }
}
