//! Tables with two hashers, one of which gives all keys the same hash.
ghost use Rattle.std.specs.Prelude.{◌≡◌, ◌<◌, ◌+◌, length};
ghost use Rattle.sip_states.specs.Tables.{IsGiven};

use crate::keys::touch;
use crate::wants::is;
use sip_machine::{Params, Rules};
use sip_states::{AnySet, Tables};
use std::alloc::Global;
use std::hash::{BuildHasher, BuildHasherDefault, FoldHasher, Hasher};
use std::process::Abort;
use std::test::Fail;

/// Hashes everything to 0.
#[derive(Drop)]
struct Zero;

impl Hasher for Zero {
    // This hasher keeps nothing of what it is given.
    ghost write = { λ s _. s };

    // Whatever was written, the hash is 0.
    ghost finish = { λ _. 0 };

    fn finish(&self) -> u64 {
        0
    }

    fn write(&mut self, _bytes: &[u8]) {}
}

/// Makes hashers that hash everything to 0.
#[derive(Drop)]
struct AllZero;

impl BuildHasher for AllZero {
    type Hasher = Zero;

    // Contracts see the hasher that is built as a value without a field, as `Zero` is.
    ghost build_hasher = { λ _. record {} };

    fn build_hasher(&self) -> Zero {
        Zero
    }
}

/// Whether the set is of the machine of the transaction with this number by these rules, by the name under which `{:?}` writes it.
fn is_own(alloc: Global, set: &AnySet, rules: Rules, number: u64) -> Result<bool, Fail> {
    // The method and the role follow from what is left of the number after division by 4, as `keys.rt` has it.
    let is_invite = number % 2 == 0;
    let method = if is_invite { "Invite" } else { "Plain" };
    let role = if number % 4 < 2 { "Client" } else { "Server" };
    let without = if is_invite && rules == Rules::R3261 {
        "3261"
    } else {
        ""
    };
    let name = format!(in alloc; "{method}{role}{without}(")?;
    let told = format!(in alloc; "{set:?}")?;
    Ok(told.as_str().starts_with(name.as_str()))
}

/// Asserts that the key of the transaction with this number gets that number and a set of its machine, and that there are `count` keys.
fn is_numbered<H: BuildHasher + Drop>(
    rt: &(impl Abort + AllocGlobal),
    tables: &mut Tables<H>,
    rules: Rules,
    number: u64,
    count: u64,
) -> Result<(), Fail> {
    let given = touch(rt.alloc(), tables, number)??;
    let own = is_own(rt.alloc(), tables.set(given), rules, number)?;
    is(
        rt,
        (given, own, tables.len()),
        (number, true, count),
        "a key",
    );
    Ok(())
}

/// Asserts that 200 keys get the numbers from 1 on, and that each keeps its own when it comes again.
fn numbers_200_keys<H: BuildHasher + Drop>(
    rt: &(impl Abort + AllocGlobal),
    tables: &mut Tables<H>,
    rules: Rules,
) -> Result<(), Fail> {
    for number in 1..201 {
        is_numbered(rt, tables, rules, number, number)?;
    }
    for number in 1..201 {
        is_numbered(rt, tables, rules, number, 200)?;
    }
    Ok(())
}

/// Empty tables with this hasher.
fn tables_with<H: BuildHasher + Drop>(
    alloc: Global,
    rules: Rules,
    hasher: H,
) -> Result<Tables<H>, Fail> {
    let params = Params::new(500, 4_000, 5_000, 50).ok_or("refused")?;
    Ok(Tables::new(alloc, params.with_rules(rules), hasher))
}

/// With the hasher of std 200 keys are told apart.
#[test]
fn numbers_keys_by_a_hash(rt: HostRuntime) -> Result<(), Fail> {
    let hasher = BuildHasherDefault::<FoldHasher>::new();
    let rules = Rules::R6026;
    numbers_200_keys(&rt, &mut tables_with(rt.alloc(), rules, hasher)?, rules)
}

/// Where all keys have one hash, they are told apart by their parts.
#[test]
fn numbers_keys_that_hash_alike(rt: HostRuntime) -> Result<(), Fail> {
    let rules = Rules::R6026;
    numbers_200_keys(&rt, &mut tables_with(rt.alloc(), rules, AllZero)?, rules)
}

/// By RFC 3261 alone the sets of INVITE transactions are of other machines.
#[test]
fn keys_have_the_machines_of_their_rules(rt: HostRuntime) -> Result<(), Fail> {
    let hasher = BuildHasherDefault::<FoldHasher>::new();
    let rules = Rules::R3261;
    numbers_200_keys(&rt, &mut tables_with(rt.alloc(), rules, hasher)?, rules)
}
