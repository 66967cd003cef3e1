// The reflexive and transitive closure of a relation on at most `MOST_RELATED` things, and whether it holds a circle.

#![tactic(auto)]

ghost use Rattle.std.specs.Prelude.{◌≡◌, ◌↔◌, true, min};
ghost use Rattle.common.specs.Limits.{most_related, most_pairs};
ghost use Rattle.closure.specs.Closure.{On, pairs_of, Relates, Below, Star, Circle, Closes};

use common::{MOST_PAIRS, MOST_RELATED};

// The relation that the first count pairs of two lent columns make: a pair that names a thing beyond those is passed over.
pub fn related<'a>(
    firsts: &'a [u8; MOST_PAIRS],
    seconds: &'a [u8; MOST_PAIRS],
    count: usize,
) -> [[bool; MOST_RELATED]; MOST_RELATED]
    ensures { Relates (pairs_of (min count most_pairs) firsts.now seconds.now) result }
{
    let n = count.min(MOST_PAIRS);
    let mut m = [[false; MOST_RELATED]; MOST_RELATED];
    for e in 0..n {
        let a = usize::from(firsts[e]);
        let b = usize::from(seconds[e]);
        if a < MOST_RELATED && b < MOST_RELATED {
            m[a][b] = true;
        }
    }
    m
}

// The closure of the relation m on the things below count. Row i is gone through only where i leads to k,
// so that a sparse relation costs a test for each i and k.
pub fn closed(
    m: [[bool; MOST_RELATED]; MOST_RELATED],
    count: usize,
) -> [[bool; MOST_RELATED]; MOST_RELATED]
    ensures { Closes (min count most_related) (On m) (On result) }
{
    let n = count.min(MOST_RELATED);
    let mut c = m;
    for k in 0..n {
        c[k][k] = true;
        for i in 0..n {
            if c[i][k] {
                for j in 0..n {
                    if c[k][j] {
                        c[i][j] = true;
                    }
                }
            }
        }
    }
    c
}

// Whether two different things below count lead to each other in the relation c.
pub fn has_circle(c: [[bool; MOST_RELATED]; MOST_RELATED], count: usize) -> bool
    ensures { result ≡ true ↔ Circle (Below (min count most_related) (On c)) }
{
    let n = count.min(MOST_RELATED);
    for i in 0..n {
        for j in 0..n {
            if i != j && c[i][j] && c[j][i] {
                return true;
            }
        }
    }
    false
}

// Whether two different things below count reach each other by steps of the relation m.
pub fn circular(m: [[bool; MOST_RELATED]; MOST_RELATED], count: usize) -> bool
    ensures { result ≡ true ↔ Circle (Star (Below (min count most_related) (On m))) }
{
    has_circle(closed(m, count), count)
}
