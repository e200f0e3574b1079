//! Laws of keys. The functions do nothing: their contracts are the laws.
ghost use Rattle.std.specs.Prelude.{◌≡◌, ◌↔◌, ℕ, List, true};
ghost use Rattle.sip_standard.specs.Outcome.{gives};
ghost use Rattle.sip_standard.specs.Says.{Said, Says};
ghost use Rattle.sip_standard.specs.Key.{KeyParts, same_key};
ghost use Rattle.sip_standard.specs.AckOf.{AckOf, IsAckOf};

use crate::key::Key;
use std::hash::Hash;

/// Keys are equal exactly if they have the same parts.
pub fn keys_are_equal_by_their_parts()
    ensures { (a b : KeyParts) → (same_key a b ≡ true) ↔ (a ≡ b) }
{}

/// Three texts are an ACK, an INVITE and a response to it, to which the ACK belongs, exactly if what they say is.
pub fn an_ack_is_told_by_its_bytes()
    ensures { (ack invite response : List ℕ) (a i r : Said) → Says ack (gives a) → Says invite (gives i) → Says response (gives r) → AckOf ack invite response ↔ IsAckOf a i r }
{}

/// Keys that feed a hasher the same bytes are the same key: each part of a key is fed.
pub fn keys_are_told_by_what_they_feed_a_hasher()
    ensures { (a b : KeyParts) → ⟦<Key as Hash>⟧.hash_input a ≡ ⟦<Key as Hash>⟧.hash_input b → a ≡ b }
{}
