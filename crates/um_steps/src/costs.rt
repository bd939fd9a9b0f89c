//! What pools pay.

ghost use Rattle.std.specs.Prelude.{◌≡◌, IsTrue};
ghost use Rattle.um_machine.specs.{Limits.{is_sound_ask}, Table.{buffer_cost, cost_of, paid_back, paid_from}};

use crate::order::rounded;
use um_base::{Answer, Ask, Reply};
use um_machine::Cost;

/// A pool gets bytes back.
#[inline]
pub fn pay_back(pools: &mut [u32], cost: Option<Cost>)
    ensures { pools.new ≡ paid_back cost pools.old }
{
    if let Some(cost) = cost {
        let pool = cost.pool as usize;
        if pool < pools.len() {
            pools[pool] = pools[pool].saturating_add(cost.bytes);
        }
    }
}

/// Bytes are taken from a pool.
#[inline]
pub fn pay_from(pools: &mut [u32], pool: Option<u8>, size: u32)
    ensures { pools.new ≡ paid_from pool size pools.old }
{
    if let Some(pool) = pool {
        let pool = pool as usize;
        if pool < pools.len() {
            pools[pool] = pools[pool].saturating_sub(size);
        }
    }
}

/// What a thread's pool pays.
#[inline]
pub fn cost_of(pool: Option<u8>, size: u32) -> Option<Cost>
    ensures { result ≡ cost_of pool size }
{
    match pool {
        None => None,
        Some(pool) => Some(Cost { pool, bytes: size }),
    }
}

/// What an object's buffer costs after an act.
#[inline]
pub fn buffer_cost(ask: &Ask, answer: Answer, before: Option<Cost>) -> Option<Cost>
    requires { IsTrue (is_sound_ask ask.now) }
    ensures { result ≡ buffer_cost ask.now answer before }
{
    match answer {
        Answer::Now(Reply::Num(_)) => match ask {
            Ask::MsgqInit {
                msg_size,
                max_msgs,
                pool,
            } => Some(Cost {
                pool: *pool,
                bytes: rounded(*msg_size * *max_msgs),
            }),
            Ask::StackInit { entries, pool } => Some(Cost {
                pool: *pool,
                bytes: rounded(4 * *entries),
            }),
            Ask::PipeInit { size, pool } => Some(Cost {
                pool: *pool,
                bytes: rounded(*size),
            }),
            _ => before,
        },
        _ => before,
    }
}
