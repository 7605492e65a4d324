// Who is paired with whom in a group: each record registers by its name and role, and a first's
// mate is found by a digest of the name.
#![tactic(auto)]

ghost use Rattle.std.specs.Prelude.{◌≡◌, ℕ, ◌+◌, ◌<◌, ◌≤◌, length, get_or};
ghost use Rattle.fields.specs.Layout.{layout_of, name_in};
ghost use Rattle.fields.specs.Sound.{Sound};
ghost use Rattle.group_frames.specs.Table.{Tabled};
ghost use Rattle.group_mates.specs.Register.{role_by, role_in, role_at, name_at, fits, holder, mates_of};
ghost use Rattle.group_mates.specs.Role.{role_number, role_code, one_more};
ghost use Rattle.group_mates.specs.Table.{key_in, Keyed, chain_of, Chained, Mated};
ghost use Rattle.group_names.specs.Same.{same_bytes};

use fields::Flags;
use group_frames::Frames;

// The roles that a record may register for, as a key has them beside a digest.
#[derive(Clone, Copy)]
enum Role {
    First = 1,
    Last = 2,
}

impl Role {
    // The number that a key has for the role; 0 there is none.
    fn number(self) -> u64
        ensures { result ≡ role_number self }
    {
        self as u64
    }
}

// The role that a record with these flags registers for.
fn role_by(f: Flags) -> Option<Role>
    ensures { role_code result ≡ role_by f.0 }
{
    if f.secondary() || f.supplementary() {
        return None;
    }
    if f.first_segment() {
        return Some(Role::First);
    }
    if f.last_segment() {
        return Some(Role::Last);
    }
    None
}

// The number of the role that a record registers for.
// Kept: 0 for none, as the definition `key_in` has it.
fn role_of(r: &[u8]) -> u64
    requires { 32 ≤ length r.now }
    ensures { (result ≡ role_in r.now) × (result < 3) }
{
    match role_by(fields::flags_of(r)) {
        Some(role) => role.number(),
        None => 0,
    }
}

// The key of a sound record.
// Kept: a clause: `Frames::record`, which docs/PROVED.md names, gives plain bytes, and a type around them would be opened
// again here.
fn key_of(r: &[u8]) -> u64
    requires { Sound r.now (layout_of r.now) }
    ensures { result ≡ key_in r.now }
{
    let d = group_names::digest(fields::name_of(r));
    d * 4 + role_of(r)
}

// Whether two sound records have one name.
fn same_name(x: &[u8], y: &[u8]) -> bool
    requires { Sound x.now (layout_of x.now) × Sound y.now (layout_of y.now) }
    ensures { result ≡ same_bytes (name_in x.now) (name_in y.now) }
{
    group_names::same(fields::name_of(x), fields::name_of(y))
}

// Enters the key of each record.
// Kept: a table of fixed length, since no memory is taken for a group.
fn enter_keys(frames: Frames, key: &mut [u64])
    requires { Tabled frames × (256 ≤ length key.old) }
    ensures { Keyed frames.entry.bytes.now key.new frames.entry.count }
{
    for (k, slot) in key[..frames.count].iter_mut().enumerate() {
        *slot = key_of(frames.record(k));
    }
}

// The chain of a key.
fn chain_of(d: u64) -> usize
    ensures { (result ≡ chain_of d) × (result < 256) }
{
    (d / 4 / 268435456 % 256) as usize
}

// Empties the chains that the records are in.
// Kept: tables of fixed length, since no memory is taken for a group.
fn clear(key: &[u64], n: usize, head: &mut [usize])
    requires { (n ≤ 256) × (256 ≤ length key.now) × (256 ≤ length head.old) }
    ensures { (k : ℕ) → k < n → get_or head.new (chain_of (get_or key.now k 0)) 0 ≡ 0 }
{
    for d in &key[..n] {
        head[chain_of(*d)] = 0;
    }
}

// Links the records into their chains, each before the one that was there.
// Kept: k is what `head` holds; and tables of fixed length, since no memory is taken for a group.
fn link(key: &[u64], n: usize, head: &mut [usize], next: &mut [usize])
    requires { (n ≤ 256) × (256 ≤ length key.now) × (256 ≤ length head.old) × (256 ≤ length next.old) }
    ensures { Chained key.now head.new next.new n }
{
    clear(key, n, head);
    for k in 0..n {
        let h = chain_of(key[k]);
        next[k] = head[h];
        head[h] = k + 1;
    }
}

// The records of a group with the tables by which mates are found: the key of each, the head of each chain, and
// the next of each record in its chain.
// Kept: numbers, 0 for none, as `mate` has them and `last_in` counts them: Options beside `mate` would say the same in
// two ways.
#[derive(Clone, Copy)]
struct Search<'a> {
    frames: Frames<'a>,
    key: &'a [u64],
    head: &'a [usize],
    next: &'a [usize],
    ghost tabled: { Tabled frames },
    ghost keyed: { Keyed frames.bytes.now key.now frames.count },
    ghost chained: { Chained key.now head.now next.now frames.count },
}

impl<'a> Search<'a> {
    // Whether record j is of the role and of the name of record i. Names are compared only where the keys
    // are equal.
    // Kept: indices below the count, as the clauses of `Frames::record` have it, which docs/PROVED.md names.
    fn fits_at(&self, role: Role, i: usize, j: usize) -> bool
        requires { (i < self.now.frames.count) × (j < self.now.frames.count) }
        ensures { result ≡ fits (role_at self.now.frames.bytes.now) (name_at self.now.frames.bytes.now) (role_number role) (name_at self.now.frames.bytes.now i) j }
    {
        if self.key[j] != self.key[i] / 4 * 4 + role.number() {
            return false;
        }
        let other = self.frames.record(j);
        same_name(other, self.frames.record(i))
    }

    // The record that has the registration of the role and the name of record i, a first. A first is looked
    // for down to record i, which is one, and is not compared with itself.
    // Kept: a `while` along a chain, which no range or iterator yields.
    fn holder_of(&self, role: Role, i: usize) -> Option<usize>
        requires { (i < self.now.frames.count) × (role_at self.now.frames.bytes.now i ≡ 1) }
        ensures { (one_more result ≡ holder (role_at self.now.frames.bytes.now) (name_at self.now.frames.bytes.now) (role_number role) (name_at self.now.frames.bytes.now i) self.now.frames.count) × (one_more result ≤ self.now.frames.count) }
    {
        let end = match role {
            Role::First => i + 1,
            Role::Last => 0,
        };
        let mut c = self.head[chain_of(self.key[i])];
        while c != end {
            let j = c - 1;
            if self.fits_at(role, i, j) {
                return Some(j);
            }
            c = self.next[j];
        }
        c.checked_sub(1)
    }

    // The mate of record i, where that is a registered first with a mate.
    fn mate_of(&self, i: usize) -> Option<usize>
        requires { i < self.now.frames.count }
        ensures { (one_more result ≡ mates_of self.now.frames.bytes.now self.now.frames.count i) × (one_more result ≤ self.now.frames.count) }
    {
        if self.key[i] % 4 != Role::First.number() {
            return None;
        }
        if self.holder_of(Role::First, i) != Some(i) {
            return None;
        }
        self.holder_of(Role::Last, i)
    }

    // Enters the mate of each record.
    // Kept: a table of fixed length, since no memory is taken for a group.
    fn enter_mates(&self, mate: &mut [usize])
        requires { 256 ≤ length mate.old }
        ensures { Mated self.now.frames.bytes.now mate.new self.now.frames.count }
    {
        for (i, slot) in mate[..self.frames.count].iter_mut().enumerate() {
            *slot = match self.mate_of(i) {
                Some(j) => j + 1,
                None => 0,
            };
        }
    }
}

// Finds the mates of the records of a group. Afterwards `mate` holds one more than the index of each registered
// first's mate, and 0 for the others. (No entry of a table is read before it is written; zeros would be left to
// memset, which takes an instruction a byte.)
// Kept: `mate` is a table of numbers and none of Option, since `Mated` says so, and with it `mates_of` and
// `pairs_of`, of which the group's theorems speak.
pub fn find(frames: Frames, mate: &mut [usize])
    requires { Tabled frames × (256 ≤ length mate.old) }
    ensures { Mated frames.entry.bytes.now mate.new frames.entry.count }
{
    let mut key = [1u64; 256];
    let mut head = [1usize; 256];
    let mut next = [1usize; 256];
    enter_keys(frames, &mut key);
    link(&key, frames.count, &mut head, &mut next);
    let search = Search {
        frames,
        key: &key,
        head: &head,
        next: &next,
    };
    search.enter_mates(mate);
}
