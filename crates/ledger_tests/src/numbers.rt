//! Sets of numbers, beside plain lists of them.
use crate::chance::Chance;
use crate::wants::{Done, holds};
use sip_numbers::Numbers;
use std::alloc::Global;
use std::test::Fail;

/// Numbers about the ends of the words of 64, and the last ones.
const ENDS: [u64; 14] = [0, 1, 62, 63, 64, 65, 127, 128, 191, 192, 6400, !64, !63, !0];

/// The set of these numbers.
pub(crate) fn set_of(alloc: Global, numbers: &[u64]) -> Result<Numbers, Fail> {
    let mut set = Numbers::new(alloc);
    numbers.iter().try_for_each(|number| set.put(*number))?;
    Ok(set)
}

/// Two sets meet in the numbers that were put into both and not taken out of one, whichever side is asked, and from wherever on. A third set leaves out the
/// numbers that it has.
#[test]
fn sets_meet_where_lists_do(rt: HostRuntime) -> Done {
    let mut sets = [set_of(rt.alloc(), &[])?, set_of(rt.alloc(), &[])?];
    let mut lists = [Vec::new(rt.alloc()), Vec::new(rt.alloc())];
    let outs = [1, 63, 65, 192, 193, !63];
    let out = set_of(rt.alloc(), &outs)?;
    let mut chance = Chance(11);
    for _ in 0..300 {
        let number = ENDS[chance.below(14) as usize % 14];
        let side = chance.below(2) as usize % 2;
        if chance.below(3) == 0 {
            sets[side].take(number);
            lists[side].retain(|it: &u64| *it != number);
        } else {
            sets[side].put(number)?;
            lists[side].push(number)?;
        }
        let ([one, other], [ones, others]) = (&sets, &lists);
        for from in ENDS {
            let is_both = |it: &&u64| from <= **it && others.contains(*it);
            let first = ones.iter().filter(is_both).copied().min();
            holds(&rt, one.next_in_both(other, from) == first, "next in both");
            holds(&rt, other.next_in_both(one, from) == first, "next in both");
            let left = ones.iter().filter(is_both).filter(|it| !outs.contains(it));
            let found = one.next_in_both_but(other, &out, from);
            holds(&rt, found == left.copied().min(), "next in both but those");
        }
    }
    Ok(())
}

/// Sets of numbers that lie far apart meet in few of them: no word is passed over, and none is told twice.
#[test]
fn sets_meet_once_in_each_number(rt: HostRuntime) -> Done {
    let sevens = set_of(rt.alloc(), &[7, 70, 700, 7000, 70_000])?;
    let tens = set_of(rt.alloc(), &[10, 70, 100, 700, 1000, 7000, 70_001])?;
    for (from, want) in [(0, 70), (71, 700), (701, 7000)] {
        holds(&rt, sevens.next_in_both(&tens, from) == Some(want), "next");
    }
    holds(&rt, sevens.next_in_both(&tens, 7001).is_none(), "no more");
    Ok(())
}
