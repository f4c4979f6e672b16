ghost use Rattle.std.specs.Prelude.{◌≡◌, ◌==◌, map, filter, find, length};
ghost use Rattle.std.specs.Option.{option_map};
ghost use Rattle.command_table.specs.Names.{one_key_names};
ghost use Rattle.command_table.specs.Table.{is_name, row_in, one_key_row};
ghost use Rattle.command_table.specs.Entry.{row_of};

use crate::{Entry, Kind};

const OF_3: [&str; 3] = ["ttl", "get", "set"];

const OF_4: [&str; 24] = [
    "dump", "pttl", "type", "decr", "incr", "hdel", "hget", "hlen", "hset", "llen", "lpop", "lrem",
    "lset", "rpop", "sadd", "spop", "srem", "zadd", "zrem", "xack", "xadd", "xdel", "xlen", "lpos",
];

const OF_5: [&str; 18] = [
    "setex", "setnx", "hkeys", "hmget", "hmset", "hscan", "hvals", "lpush", "ltrim", "rpush",
    "scard", "sscan", "zcard", "zrank", "zscan", "xtrim", "getex", "pfadd",
];

const OF_6: [&str; 23] = [
    "expire", "append", "bitpos", "decrby", "getbit", "getset", "incrby", "psetex", "setbit",
    "strlen", "hsetnx", "lindex", "lpushx", "lrange", "rpushx", "zcount", "zrange", "zscore",
    "xclaim", "xrange", "geoadd", "geopos", "getdel",
];

const OF_7: [&str; 15] = [
    "persist", "pexpire", "restore", "hexists", "hgetall", "hincrby", "hstrlen", "linsert",
    "zincrby", "zpopmax", "zpopmin", "geodist", "geohash", "pfcount", "zmscore",
];

const OF_8: [&str; 8] = [
    "expireat", "bitcount", "bitfield", "getrange", "setrange", "smembers", "zrevrank", "xpending",
];

const OF_9: [&str; 5] = [
    "pexpireat",
    "sismember",
    "zlexcount",
    "zrevrange",
    "xrevrange",
];

const OF_10: [&str; 3] = ["xautoclaim", "hrandfield", "smismember"];

const OF_11: [&str; 4] = ["incrbyfloat", "srandmember", "zrangebylex", "zrandmember"];

const OF_12: [&str; 1] = ["hincrbyfloat"];

const OF_13: [&str; 1] = ["zrangebyscore"];

const OF_14: [&str; 2] = ["zremrangebylex", "zrevrangebylex"];

const OF_15: [&str; 1] = ["zremrangebyrank"];

const OF_16: [&str; 2] = ["zremrangebyscore", "zrevrangebyscore"];

pub(crate) fn one_key_entry(name: &[u8]) -> Option<Entry>
    ensures { option_map row_of result ≡ row_in (map one_key_row one_key_names) name.now }
{
    match find_name(names_of_length(name.len()), name) {
        Some(name) => Some(Entry {
            kind: Kind::One,
            name,
            least: 2,
            key_at: 1,
        }),
        None => None,
    }
}

#[tactic(auto, unfolding(crate::specs::Names::one_key_names))]
fn names_of_length(len: usize) -> &'static [&'static str]
    ensures { map (λ n. n.now) result.now ≡ filter (λ n. length n == len) one_key_names }
{
    match len {
        3 => &OF_3,
        4 => &OF_4,
        5 => &OF_5,
        6 => &OF_6,
        7 => &OF_7,
        8 => &OF_8,
        9 => &OF_9,
        10 => &OF_10,
        11 => &OF_11,
        12 => &OF_12,
        13 => &OF_13,
        14 => &OF_14,
        15 => &OF_15,
        16 => &OF_16,
        _ => &[],
    }
}

fn find_name(names: &[&'static str], name: &[u8]) -> Option<&'static str>
    ensures { option_map (λ n. n.now) result ≡ find (is_name name.now) (map
        (λ n. n.now) names.now) }
{
    for known in names {
        if name.eq_ignore_ascii_case(known.as_bytes()) {
            return Some(*known);
        }
    }
    None
}
