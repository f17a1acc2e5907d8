// The checks of a query list: how many queries there are (9), that each index is below 2^k (10), and that no two
// queries share a first-layer coset (17).
#![tactic(auto)]

ghost use Rattle.std.specs.Prelude.{◌≡◌, ◌&&◌, ◌≤◌, leb};
ghost use Rattle.fri.specs.Checks.{first_outside, among, visited_cosets, first_shared};
ghost use Rattle.fri.specs.Checks.{indices_outcome, queries_outcome};

use refusal::Cause;

// A query list: 1 to 256 queries (9), then their indices; `step` is that of round 0.
pub fn checked_queries(k: usize, step: usize, queries: &[u64]) -> Result<(), Cause>
    requires { (k ≤ 20) × (step ≤ 3) }
    ensures { result ≡ queries_outcome k step queries.now }
{
    if !is_query_count(queries.len()) {
        return Err(Cause::QueryCountOutOfRange);
    }
    checked_indices(k, step, queries)
}

pub fn is_query_count(count: usize) -> bool
    ensures { result ≡ (leb 1 count && leb count 256) }
{
    1 <= count && count <= 256
}

// The indices of a query list: each below 2^k (10), then no two in one first-layer coset (17).
pub fn checked_indices(k: usize, step: usize, queries: &[u64]) -> Result<(), Cause>
    requires { (k ≤ 20) × (step ≤ 3) }
    ensures { result ≡ indices_outcome k step queries.now }
{
    if let Some(query) = first_outside(1 << k, queries) {
        return Err(Cause::QueryOutOfRange { query });
    }
    match first_shared(step, queries) {
        Some(query) => Err(Cause::CosetShared { query }),
        None => Ok(()),
    }
}

// The first query whose index is not below the size.
fn first_outside(size: u64, queries: &[u64]) -> Option<usize>
    ensures { result ≡ first_outside size queries.now 0 }
{
    queries.iter().position(|j| *j >= size)
}

// The first query that lies in the first-layer coset of an earlier one. Each is compared with those before it: 256
// queries take 32,640 comparisons, and no list of cosets is kept.
fn first_shared(step: usize, queries: &[u64]) -> Option<usize>
    requires { step ≤ 3 }
    ensures { result ≡ first_shared step queries.now }
{
    for (query, j) in queries.iter().enumerate() {
        if visits(step, &queries[..query], *j >> step) {
            return Some(query);
        }
    }
    None
}

// Whether one of the queries lies in that first-layer coset. All are compared, also behind one that does: a loop that
// ends early took longer for each.
fn visits(step: usize, queries: &[u64], coset: u64) -> bool
    requires { step ≤ 3 }
    ensures { result ≡ among (visited_cosets step queries.now) coset }
{
    queries
        .iter()
        .fold(false, |seen, j| seen | (*j >> step == coset))
}
