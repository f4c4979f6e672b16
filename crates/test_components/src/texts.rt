// Requests and their answers.
pub(crate) type Exchange = (&'static [u8], &'static [u8]);

// A SET of 27 bytes and an MGET of 35.
pub(crate) const SET_AND_MGET: Exchange = (
    b"*3\r\n$3\r\nSET\r\n$1\r\na\r\n$1\r\n1\r\n*4\r\n$4\r\nMGET\r\n$1\r\na\r\n$1\r\nb\r\n$1\r\na\r\n",
    BOTH_ANSWERS,
);

pub(crate) const BOTH_ANSWERS: &[u8] = b"+OK\r\n*3\r\n$1\r\n1\r\n$-1\r\n$1\r\n1\r\n";

// Two PINGs of 14 bytes; their answers have 7.
pub(crate) const PINGS: Exchange = (
    b"*1\r\n$4\r\nPING\r\n*1\r\n$4\r\nPING\r\n",
    b"+PONG\r\n+PONG\r\n",
);

// No other client has these keys.
pub(crate) const OTHER_KEYS: &[u8] =
    b"*3\r\n$3\r\nSET\r\n$3\r\nabc\r\n$1\r\n1\r\n*4\r\n$4\r\nMGET\r\n$3\r\nabc\r\n$0\r\n\r\n$3\r\nabc\r\n";

pub(crate) const OTHER_ANSWERS: &[u8] = b"+OK\r\n*3\r\n$1\r\n1\r\n$-1\r\n$1\r\n1\r\n";

// Local answers, a reader that refuses its bytes, a last command, and commands for one host and for several.
pub(crate) const EXCHANGES: &[Exchange] = &[
    SET_AND_MGET,
    (
        b"*3\r\n$5\r\nblpop\r\n$1\r\nk\r\n$1\r\n0\r\n*1\r\n$4\r\nping\r\n",
        b"-unsupported command 'blpop'\r\n+PONG\r\n",
    ),
    (
        b"*1\r\n$4\r\nPING\r\n*1\n*1\r\n$4\r\nPING\r\n",
        b"+PONG\r\n-downstream protocol error\r\n",
    ),
    (b"*1\r\n$4\r\nQUIT\r\n*1\r\n$4\r\nPING\r\n", b"+OK\r\n"),
    (
        b"*5\r\n$4\r\nMSET\r\n$1\r\na\r\n$1\r\n1\r\n$0\r\n\r\n$1\r\n2\r\n*5\r\n$3\r\nDEL\r\n$1\r\na\r\n$1\r\na\r\n$0\r\n\r\n$3\r\nabc\r\n",
        b"+OK\r\n:2\r\n",
    ),
    (
        b"*2\r\n$3\r\nSET\r\n$1\r\na\r\n*1\r\n$4\r\nPING\r\n",
        b"-ERR wrong number of arguments\r\n+PONG\r\n",
    ),
];

// The key belongs to host 1 of three.
pub(crate) const GET: &[u8] = b"*2\r\n$3\r\nGET\r\n$1\r\na\r\n";

pub(crate) const SET: &[u8] = b"*3\r\n$3\r\nSET\r\n$1\r\na\r\n$1\r\n1\r\n";

// The proxy's answer for a lost part.
pub(crate) const FAILURE: &[u8] = b"-upstream failure\r\n";

pub(crate) const NOTHING: &[u8] = b"$-1\r\n";
