ghost use Rattle.std.specs.Prelude.{◌≡◌, ◌≢◌, ◌<◌, ◌≤◌, ◌==◌, ℕ, [], slice_index, slice_index_or, length};
ghost use Rattle.std.specs.List.{list_all, position_or_len};
ghost use Rattle.proxy_stats.specs.declared.refused_names.RefusedName.{RefusedName};
ghost use Rattle.proxy_stats.specs.RefusedNames.{AreAdded, AreAddedWith, IsLeast, has_key, is_free, is_shown, is_shown_byte, joined, key_of, leaving, lightened, lighter, more_often, noted, noted_key, placed, shown_name};

/// The most names of refused commands that have a place.
pub const MAX_REFUSED_NAMES: usize = 32;

/// The most bytes of a name that can have a place.
pub const MAX_NAME_SHOWN: usize = 32;

/// A place for the name of a refused command.
#[derive(Clone, Copy, Debug, PartialEq, Eq)]
pub struct RefusedName {
    /// The name in lower case, and zeros behind it. All are zeros in a free place.
    pub key: [u8; MAX_NAME_SHOWN],

    /// How many commands of this name were counted since it has the place; 0 in a free one.
    pub count: u64,

    /// How many names without a place have to come before this one loses its own.
    pub weight: u64,
}

/// How often the names of refused commands came. 32 at most have a place, and the rest is one number.
#[derive(Clone, Copy, Debug, PartialEq, Eq)]
pub struct RefusedNames {
    /// The places.
    pub places: [RefusedName; MAX_REFUSED_NAMES],

    /// The commands that no place counts.
    pub others: u64,
}

impl RefusedName {
    const FREE: RefusedName = RefusedName {
        key: [0; MAX_NAME_SHOWN],
        count: 0,
        weight: 0,
    };

    /// Whether no name has this place.
    pub fn is_free(&self) -> bool
        ensures { result ≡ is_free self.now }
    {
        self.count == 0
    }

    /// The name in lower case: letters, digits, `.`, `_`, `-`, `|`.
    pub fn name(&self) -> &[u8]
        ensures { result.now ≡ shown_name self.now }
    {
        &self.key[..end_of(&self.key)]
    }

    fn has_key(&self, key: &[u8; MAX_NAME_SHOWN]) -> bool
        ensures { result ≡ has_key key.now self.now }
    {
        self.key == *key
    }

    fn more_often(&self) -> RefusedName
        ensures { result ≡ more_often self.now }
    {
        RefusedName {
            key: self.key,
            count: self.count.saturating_add(1),
            weight: self.weight.saturating_add(1),
        }
    }

    fn joined(&self, other: &RefusedName) -> RefusedName
        ensures { result ≡ joined self.now other.now }
    {
        RefusedName {
            key: self.key,
            count: self.count.saturating_add(other.count),
            weight: self.weight.saturating_add(other.weight),
        }
    }

    fn lighter(&self) -> RefusedName
        ensures { result ≡ lighter self.now }
    {
        if self.weight <= 1 {
            return RefusedName::FREE;
        }
        RefusedName {
            key: self.key,
            count: self.count,
            weight: self.weight - 1,
        }
    }

    fn leaving(&self) -> u64
        ensures { result ≡ leaving self.now }
    {
        if self.weight <= 1 { self.count } else { 0 }
    }
}

impl RefusedNames {
    /// No command was refused.
    pub const NONE: RefusedNames = RefusedNames {
        places: [RefusedName::FREE; MAX_REFUSED_NAMES],
        others: 0,
    };

    /// Counts a refused command of this name, in any case.
    ///
    /// A name without a place gets a free one. Where none is free, it is one of the rest, and each place loses of its
    /// weight; a place without weight is free, and its count goes to the rest.
    pub fn note(&mut self, name: &[u8])
        ensures { self.new ≡ noted self.old name.now }
    {
        if is_shown(name) {
            self.note_key(&key_of(name));
        } else {
            self.others = self.others.saturating_add(1);
        }
    }

    // Counts a refused command that has no name.
    pub(crate) fn note_nameless(&mut self)
        ensures { self.new ≡ noted self.old [] }
    {
        self.others = self.others.saturating_add(1);
    }

    fn note_key(&mut self, key: &[u8; MAX_NAME_SHOWN])
        ensures { self.new ≡ noted_key self.old key.now }
    {
        let place = place_of(&self.places, key);
        if place < self.places.len() {
            self.places[place] = self.places[place].more_often();
        } else {
            self.place(key);
        }
    }

    fn place(&mut self, key: &[u8; MAX_NAME_SHOWN])
        ensures { self.new ≡ placed self.old key.now }
    {
        let free = free_place(&self.places);
        if free < self.places.len() {
            self.places[free] = RefusedName {
                key: *key,
                count: 1,
                weight: 1,
            };
        } else {
            self.lighten();
        }
    }

    /// The counts of both together. The greatest `u64` stands for any more.
    ///
    /// While a place is free, each name is counted as often as in both. Else the smaller of two counts is left to the
    /// rest.
    pub fn plus(&self, other: &RefusedNames) -> RefusedNames
        ensures { AreAdded self.now other.now result }
    {
        let mut sum = *self;
        for place in &other.places {
            sum.add(place);
        }
        sum.others = sum.others.saturating_add(other.others);
        sum
    }

    fn add(&mut self, place: &RefusedName)
        ensures { AreAddedWith self.old place.now self.new }
    {
        let same = place_of(&self.places, &place.key);
        if same < self.places.len() {
            self.places[same] = self.places[same].joined(place);
        } else {
            self.add_other(place);
        }
    }

    // The one with the smaller count is left to the rest. A free place counts the least.
    fn add_other(&mut self, place: &RefusedName)
        requires { (j : ℕ) (d : RefusedName) → j < length self.old.places
            → (slice_index_or self.old.places j d).key ≢ place.now.key }
        ensures { AreAddedWith self.old place.now self.new }
    {
        let least = least_place(&self.places);
        if self.places[least].count < place.count {
            self.others = self.others.saturating_add(self.places[least].count);
            self.places[least] = *place;
        } else {
            self.others = self.others.saturating_add(place.count);
        }
    }

    // The name that came is one of the rest, too.
    fn lighten(&mut self)
        ensures { self.new ≡ lightened self.old }
    {
        self.others = self.others.saturating_add(1);
        for i in 0..self.places.len() {
            self.others = self.others.saturating_add(self.places[i].leaving());
            self.places[i] = self.places[i].lighter();
        }
    }
}

// The place that has this name, or their number.
fn place_of(places: &[RefusedName], key: &[u8; MAX_NAME_SHOWN]) -> usize
    ensures { result ≡ position_or_len (has_key key.now) places.now }
{
    for (i, place) in places.iter().enumerate() {
        if place.has_key(key) {
            return i;
        }
    }
    places.len()
}

// The first free place, or their number.
fn free_place(places: &[RefusedName]) -> usize
    ensures { result ≡ position_or_len is_free places.now }
{
    for (i, place) in places.iter().enumerate() {
        if place.is_free() {
            return i;
        }
    }
    places.len()
}

// The first place that counts the least.
fn least_place(places: &[RefusedName]) -> usize
    requires { 0 < length places.now }
    ensures { IsLeast places.now result }
{
    let mut least = 0;
    for i in 1..places.len() {
        if places[i].count < places[least].count {
            least = i;
        }
    }
    least
}

fn is_shown_byte(byte: u8) -> bool
    ensures { result ≡ is_shown_byte byte }
{
    byte.is_ascii_alphanumeric() || byte == b'.' || byte == b'_' || byte == b'-' || byte == b'|'
}

fn is_shown(name: &[u8]) -> bool
    ensures { result ≡ is_shown name.now }
{
    !name.is_empty() && name.len() <= MAX_NAME_SHOWN && all_are_shown(name)
}

fn all_are_shown(name: &[u8]) -> bool
    ensures { result ≡ list_all is_shown_byte name.now }
{
    for byte in name {
        if !is_shown_byte(*byte) {
            return false;
        }
    }
    true
}

// Where the zeros begin.
fn end_of(key: &[u8]) -> usize
    ensures end { result ≡ position_or_len (λ b. b == 0) key.now }
    ensures within { result ≤ length key.now }
{
    for (i, byte) in key.iter().enumerate() {
        if *byte == 0 {
            return i;
        }
    }
    key.len()
}

fn byte_at(name: &[u8], i: usize) -> u8
    ensures { result ≡ slice_index name.now i }
{
    if i < name.len() { name[i] } else { 0 }
}

fn key_of(name: &[u8]) -> [u8; MAX_NAME_SHOWN]
    ensures { result ≡ key_of name.now }
{
    let mut key = [0; MAX_NAME_SHOWN];
    for i in 0..MAX_NAME_SHOWN {
        key[i] = byte_at(name, i).to_ascii_lowercase();
    }
    key
}
