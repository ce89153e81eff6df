//! What follows from the definitions of literal pools.

ghost use Rattle.std.specs.Prelude.{◌≡◌, ◌≤◌, ◌+◌, ◌%◌, List, [], ℕ};
ghost use Rattle.cx_asm_expressions.specs.Digits.{bound};
ghost use Rattle.cx_asm_pools.specs.Laws.Literals.{IsPool, StandApart};
ghost use Rattle.cx_asm_pools.specs.Pools.{OpenLiterals, closed_pool, pool_size, with_parts};

/// However operands use literals, a pool has each text once, with the size that it writes.
#[tactic(auto, using(crate::specs::Facts::Literals::no_pool))]
pub fn texts_are_pooled_once()
    ensures none { IsPool [] }
    ensures more { (user : ℕ) (pool : OpenLiterals) (operands : List (List ℕ)) → IsPool pool
        → IsPool (with_parts user pool operands) }
{}

/// The literals of a pool that begins on a multiple of 8 don't overlap: each text once, by their groups, each at the
/// end of the one before it and on a multiple of its group, the last one's end the pool's. (Where the pool goes beyond
/// the bound it has no place.)
pub fn literals_stand_apart()
    ensures placed { (pool : OpenLiterals) (from : ℕ) → IsPool pool → from % 8 ≡ 0
        → from + pool_size pool ≤ bound
        → StandApart from (closed_pool from pool) (from + pool_size pool) }
    ensures none { (from : ℕ) → StandApart from (closed_pool from []) from }
{}
