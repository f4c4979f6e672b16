//! What may stand somewhere in a settings file.
ghost use Rattle.std.specs.Prelude.{IfSome};
ghost use Rattle.settings_fault.specs.Lines.{ArePrintable};

/// The keys of the table.
pub(crate) const KEYS: &str =
    "listen, hosts, weights, workers, reply_ms, tags, interval_ms, base_ms, max_ms, max_percent, consecutive, success_hosts, request_volume, factor or panic_percent";

/// What an address is.
pub(crate) const ADDRESS: &str = "an address and a port, as 10.0.0.1:6379 or [::1]:6379";

/// What a weight is.
pub(crate) const WEIGHT: &str = "a whole number, 1 to 100";

/// What the value of a key may be, in the words of the table of settings; `None` for a key that the table hasn't.
pub(crate) fn allowed(key: &str) -> Option<&'static str>
    ensures { IfSome result (λ words. ArePrintable words.now) }
{
    Some(match key {
        "listen" => ADDRESS,
        "hosts" => "1 to 64 texts of an address and a port, no two the same",
        "weights" => "one number for each host, 1 to 100",
        "workers" => "a whole number, 1 to 64",
        "reply_ms" => "a whole number, 1 to 600000",
        "tags" => "true or false",
        "interval_ms" | "base_ms" => "a whole number, 1 to 3600000",
        "max_ms" => "a whole number, base_ms to 86400000",
        "max_percent" | "panic_percent" => "a whole number, 0 to 100",
        "consecutive" => "a whole number, 0 to 1000000",
        "success_hosts" => "a whole number, 1 to 65",
        "request_volume" => "a whole number, 1 to 1000000",
        "factor" => "a whole number, 0 to 100000",
        _ => return None,
    })
}

/// What the value of a key of the table may be; for another key an object.
pub(crate) fn allowed_at(key: &str) -> &'static str
    ensures { ArePrintable result.now }
{
    match allowed(key) {
        Some(words) => words,
        None => Wanted::Object.words(),
    }
}

/// What JSON wants at a place.
#[derive(Clone, Copy, Drop)]
pub(crate) enum Wanted {
    Utf8,
    Object,
    Array,
    Value,
    ValueOrEnd,
    Key,
    KeyOrEnd,
    Colon,
    CommaOrBrace,
    CommaOrBracket,
    End,
    Levels,
    Quotes,
    Escape,
    Characters,
    Number,
}

impl Wanted {
    /// Its words.
    pub(crate) fn words(self) -> &'static str
        ensures { ArePrintable result.now }
    {
        match self {
            Wanted::Utf8 => "UTF-8",
            Wanted::Object => "{",
            Wanted::Array => "[",
            Wanted::Value => {
                "a value: a number, true, false, null, a text in double quotes, [ or {"
            }
            Wanted::ValueOrEnd => "a value, or ]",
            Wanted::Key => "a key in double quotes",
            Wanted::KeyOrEnd => "a key in double quotes, or }",
            Wanted::Colon => ":",
            Wanted::CommaOrBrace => ", or }",
            Wanted::CommaOrBracket => ", or ]",
            Wanted::End => "the end of the file",
            Wanted::Levels => "at most 127 levels",
            Wanted::Quotes => "the closing \" of a text",
            Wanted::Escape => {
                "\\\", \\\\, \\/, \\b, \\f, \\n, \\r, \\t, or \\u and four hexadecimal digits"
            }
            Wanted::Characters => "a text whose \\u escapes are characters",
            Wanted::Number => "a number of at most 1.7976931348623157e308",
        }
    }
}
