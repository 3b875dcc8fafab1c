//! How large a script of a version may be: from version 3 on, larger than before.

ghost use Rattle.std.specs.Prelude.{◌≡◌, ◌≤◌};
ghost use Rattle.dv_forms.specs.Limits.{most_bytes, most_nodes, most_limit};

use crate::versions::WIDE_SINCE;
use dv_script::limits::{MOST_BYTES, MOST_LIMIT, MOST_NODES};

/// The most bytes of a script of any version.
pub const WIDEST_BYTES: usize = 67_108_864;

/// The most nodes of a script of any version.
pub const WIDEST_NODES: u64 = 1_000_000;

/// The most that a script of any version may let its journal weigh.
pub const WIDEST_LIMIT: u64 = 10_000_000;

/// How often a repeat has its events happen, at most: no oftener may a list of one event, by the
/// nodes that this adds.
pub const MOST_TIMES: u64 = 250_000;

/// The most bytes of a script of this version.
pub fn most_bytes(version: u32) -> usize
    ensures { result ≡ most_bytes version }
{
    if WIDE_SINCE <= version {
        WIDEST_BYTES
    } else {
        MOST_BYTES
    }
}

/// The most nodes of a script of this version.
pub fn most_nodes(version: u32) -> u64
    ensures { result ≡ most_nodes version }
{
    if WIDE_SINCE <= version {
        WIDEST_NODES
    } else {
        MOST_NODES
    }
}

/// The most that a script of this version may let its journal weigh.
pub fn most_limit(version: u32) -> u64
    ensures { result ≡ most_limit version }
{
    if WIDE_SINCE <= version {
        WIDEST_LIMIT
    } else {
        MOST_LIMIT
    }
}
