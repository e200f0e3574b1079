//! Texts that are told apart by their hashes first.
ghost use Rattle.std.specs.Prelude.{◌≡◌, IfOk, refl};
ghost use Rattle.std.specs.Cmp.{partial_order_from_own_ties};
ghost use Rattle.std.specs.Cmp.Rules.{comparing};
ghost use Rattle.std.specs.Ordering.{as_partial_cmp, eq_by_cmp};
ghost use Rattle.std.proofs.Common.{rules};
ghost use Rattle.sip_machine.specs.inner.Order.{full_hash, hash_of, text_cmp};

use std::alloc::{AllocError, Global};
use std::cmp::Ordering;
use std::hash::{FoldHasher, Hasher};
use std::marker::Model;

/// How many bytes a hash of a front looks at. The start line and the top Via stand among these, which tell ordinary messages apart.
const MOST_HASHED: usize = 256;

/// A text with its hash. Contracts see the text.
#[derive(Debug, Drop)]
pub(crate) struct Hashed {
    text: Vec<u8>,
    hash: u64,
}

impl Model for Hashed {
    ghost use Rattle.std.specs.Prelude.{◌≡◌, ℕ, List};
    ghost use Rattle.sip_machine.specs.inner.Order.{full_hash};

    // A text with its hash means the text, and the hash is that of all its bytes.
    ghost Value = { List ℕ };

    ghost view = { λ h. h.text.items };

    ghost invariant = { λ h. h.hash ≡ full_hash h.text.items };
}

impl Hashed {
    /// The text with its hash.
    pub(crate) fn of(text: Vec<u8>) -> Hashed
        ensures { result ≡ text.items }
    {
        let hash = full_hash(&text);
        Hashed { text, hash }
    }

    /// A copy of the text with its hash.
    pub(crate) fn copy(&self, alloc: Global) -> Result<Hashed, AllocError>
        ensures { IfOk result (λ copy. copy ≡ self.now) }
    {
        let text = Vec::from_slice(alloc, self.text())?;
        Ok(Hashed {
            text,
            hash: self.hash,
        })
    }

    /// The text alone.
    pub(crate) fn text(&self) -> &[u8]
        ensures { result.now ≡ self.now }
    {
        &self.text
    }
}

impl PartialEq for Hashed {
    ghost eq = { eq_by_cmp text_cmp };

    ghost laws = { Prim.search (comparing, rules) };

    /// Whether the texts are the same. Where their hashes differ, they are not, and no byte is compared.
    fn eq(&self, other: &Hashed) -> bool {
        self.hash == other.hash && self.text.as_slice() == other.text.as_slice()
    }
}

impl Eq for Hashed {
    ghost laws = { Prim.search (comparing, rules) };
}

impl PartialOrd for Hashed {
    ghost partial_cmp = { as_partial_cmp text_cmp };

    ghost laws = { partial_order_from_own_ties (Prim.search (comparing, rules)) (λ x y. refl) };

    fn partial_cmp(&self, other: &Hashed) -> Option<Ordering> {
        Some(self.cmp(other))
    }
}

impl Ord for Hashed {
    ghost cmp = { text_cmp };

    ghost total = { Prim.search (comparing, rules) };

    ghost matches_partial_cmp = { Prim.search (comparing, rules) };

    ghost matches_eq = { λ x y. refl };

    /// By the hashes, and texts with one hash by their bytes. So no texts, however their hashes fall, make a search among them dear.
    fn cmp(&self, other: &Hashed) -> Ordering {
        match self.hash.cmp(&other.hash) {
            Ordering::Equal => self.text().cmp(other.text()),
            unequal => unequal,
        }
    }
}

/// A hash of all of these bytes. It says nothing of them but that equal bytes have equal hashes.
#[inline(always)]
fn full_hash(bytes: &[u8]) -> u64
    ensures { result ≡ full_hash bytes.now }
{
    let mut hasher = FoldHasher::default();
    hasher.write(bytes);
    hasher.finish()
}

/// A hash of the front of these bytes.
#[tactic(auto, using(std::proofs::lemmas::List::take_min))]
pub(crate) fn hash(bytes: &[u8]) -> u64
    ensures { result ≡ hash_of bytes.now }
{
    full_hash(&bytes[..MOST_HASHED.min(bytes.len())])
}
